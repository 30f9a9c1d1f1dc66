// The cases of a stored list. A case is seven decimal numbers, each with one byte after it: the lengths of source,
// indent and answer, then `width_set`, `width`, `line_ending` and `final_newline`. After them stand the source, the
// indent, the answer and LF.
ghost use Rattle.std.specs.Prelude.{◌≤◌, length};
ghost use Rattle.replay_run.specs.Stored.{NumberRead, CaseRead};

#[derive(Clone, Copy)]
pub struct Number {
    pub value: usize,
    pub next: usize,
}

#[derive(Clone, Copy)]
pub struct Case {
    pub from: usize,
    pub source: usize,
    pub indent: usize,
    pub answer: usize,
    pub width_set: usize,
    pub width: usize,
    pub line_ending: usize,
    pub final_newline: usize,
}

// The number whose digits start at `at`, and the place after the byte that ends it. A number takes no digit from
// 100,000,000 on.
fn number_at(list: &[u8], at: usize) -> Number
    requires { at ≤ length list.now }
    ensures { NumberRead list.now at result }
{
    let mut n = 0;
    for i in at..list.len() {
        let c = list[i];
        if !c.is_ascii_digit() || 100000000 <= n {
            return Number {
                value: n,
                next: i + 1,
            };
        }
        n = n * 10 + (c - b'0') as usize;
    }
    Number {
        value: n,
        next: list.len(),
    }
}

pub fn case_at(list: &[u8], at: usize) -> Case
    requires { at ≤ length list.now }
    ensures { CaseRead list.now at result }
{
    let source = number_at(list, at);
    let indent = number_at(list, source.next);
    let answer = number_at(list, indent.next);
    let width_set = number_at(list, answer.next);
    let width = number_at(list, width_set.next);
    let line_ending = number_at(list, width.next);
    let final_newline = number_at(list, line_ending.next);
    Case {
        from: final_newline.next,
        source: source.value,
        indent: indent.value,
        answer: answer.value,
        width_set: width_set.value,
        width: width.value,
        line_ending: line_ending.value,
        final_newline: final_newline.value,
    }
}
