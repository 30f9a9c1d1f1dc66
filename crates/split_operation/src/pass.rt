// The passes over a line's bytes and their classes: where the line is broken first, and its next operator of a
// strength.
ghost use Rattle.std.specs.Prelude.{◌≡◌, ◌≤◌, ◌<◌, ◌^◌, length, get_or};
ghost use Rattle.rules.specs.Basics.{one_of};
ghost use Rattle.rules.specs.Scan.{cell, is_code};
ghost use Rattle.rules.specs.ClassBytes.{class_of, cells_of};
ghost use Rattle.rules.specs.Strengths.{strengths_in};
ghost use Rattle.rules.specs.SplitOperation.{in_word, keywords, has_word};
ghost use Rattle.split_operation.specs.Pass.{PlainTest, NonePending, is_operand, is_quiet, QuietRun, Balances};
ghost use Rattle.split_operation.specs.Pass.{WordStep, starts_keyword, NoKeyword, IsLooser, broken_at, strength_of};
ghost use Rattle.split_operation.specs.Pass.{Breakable, PassEnd, BreakFound, Cutting, NextOp, Strong};

use basics::{is_closer, is_ident, is_opener};
use rules::Strengths;
use rules::class_byte::{CODE, STR};
use top_level_ops::{OpState, token_at};

fn is_code(k: u8) -> bool
    ensures { result ≡ is_code (class_of k) }
{
    k == CODE
}

// A letter, digit or underscore of code.
fn in_word(k: u8, c: u8) -> bool
    ensures { result ≡ in_word (cell c (class_of k)) }
{
    is_code(k) && is_ident(c)
}

// Whether nothing is pending.
fn is_plain(s: OpState) -> bool
    ensures { PlainTest s result }
{
    s.skip == 0 && !s.esc
}

// A byte that an operand ends with: one of a word, or one of a string that starts a character.
fn is_operand(k: u8, c: u8) -> bool
    ensures { result ≡ is_operand (cell c (class_of k)) }
{
    if is_code(k) {
        is_ident(c)
    } else {
        (k == STR) & !utf8::is_tail(c)
    }
}

// A point for each byte of a word or a gap of code.
static QUIET: [u8; 256] = *b"\
    !!!!!!!!!.!!!!!!!!!!!!!!!!!!!!!!\
    .!!!!!!!!!!!!!!!..........!!!!!!\
    !..........................!!!!.\
    !..........................!!!!!\
    ................................\
    ................................\
    !!!!!!!!!!!!!!!!!!!!!!!!!!!!!!!!\
    !!!!!!!!!!!!!!!!!!!!!!!!!!!!!!!!";

// A byte that an operand ends with, or one of a gap: a space or a tab of code, or a byte that starts no character.
fn is_quiet(k: u8, c: u8) -> bool
    ensures { result ≡ is_quiet (cell c (class_of k)) }
{
    if is_code(k) {
        QUIET[c as usize] != b'!'
    } else {
        (k == STR) | utf8::is_tail(c)
    }
}

// Where a run of words, strings and gaps ends, and whether an operand ends there.
#[derive(Clone, Copy)]
pub struct Run {
    pub end: usize,
    pub operand: bool,
}

// The run of words, strings and gaps that stands at a place.
// kept: line and class are not one struct, here and below: no plainer, since of a struct that holds lent slices the
// contracts say `k.entry.line.now` (tried on `has_keyword`), and what it would say of both is a single bound
fn quiet_run(line: &[u8], class: &[u8], from: usize, s: OpState) -> Run
    requires within { (from ≤ length line.now) × (length line.now ≤ length class.now) }
    requires none { NonePending s }
    ensures { QuietRun line.now class.now from s result.end result.operand }
{
    let mut operand = s.operand;
    for i in from..line.len() {
        if !is_quiet(class[i], line[i]) {
            return Run { end: i, operand };
        }
        operand |= is_operand(class[i], line[i]);
    }
    Run {
        end: line.len(),
        operand,
    }
}

// The same if nothing is pending, else the place itself: the passes step over such a run at once.
fn run_at(line: &[u8], class: &[u8], from: usize, s: OpState) -> Run
    requires { (from ≤ length line.now) × (length line.now ≤ length class.now) }
    ensures { QuietRun line.now class.now from s result.end result.operand }
{
    if is_plain(s) {
        quiet_run(line, class, from, s)
    } else {
        Run {
            end: from,
            operand: s.operand,
        }
    }
}

// The depth of brackets after a byte, or none where it falls below 0.
fn balance(depth: usize, k: u8, c: u8) -> Option<usize>
    requires { depth < 2 ^ 32 }
    ensures { Balances depth (cell c (class_of k)) result }
{
    if !is_code(k) {
        Some(depth)
    } else if is_opener(c) {
        Some(depth + 1)
    } else if is_closer(c) {
        depth.checked_sub(1)
    } else {
        Some(depth)
    }
}

// kept: no plainer: `matches!(s, b"if" | ..)` was tried: each of its 26 goals needs an answer, this form none
#[tactic(auto, using(crate::proofs::WordLaws::same_pointwise), unfolding(rules::specs::Basics::one_of))]
pub fn is_keyword(s: &[u8]) -> bool
    ensures { result ≡ one_of keywords s.now }
{
    s == b"if".as_slice()
        || s == b"then".as_slice()
        || s == b"else".as_slice()
        || s == b"match".as_slice()
        || s == b"await".as_slice()
}

// Where the word starts that goes on after the byte at i, or none where a keyword ends before it.
fn word_step(line: &[u8], start: usize, i: usize, k: u8) -> Option<usize>
    requires { (i < length line.now) × (start ≤ i) }
    ensures { WordStep line.now start i (cell (get_or line.now i 0) (class_of k)) result }
{
    if in_word(k, line[i]) {
        return Some(start);
    }
    if start + 1 < i && is_keyword(&line[start..i]) {
        return None;
    }
    Some(i + 1)
}

// Whether a keyword may start with the bytes a, b and c. It makes no branch, so that 16 places are tested at once.
fn starts_keyword(a: u8, b: u8, c: u8) -> bool
    ensures { result ≡ starts_keyword a b c }
{
    ((a == b'i') & (b == b'f'))
        | ((a == b't') & (b == b'h') & (c == b'e'))
        | ((a == b'e') & (b == b'l') & (c == b's'))
        | ((a == b'm') & (b == b'a') & (c == b't'))
        | ((a == b'a') & (b == b'w') & (c == b'a'))
}

// Whether a keyword may stand in a line: most lines are told to have none at once.
fn may_have_keyword(line: &[u8]) -> bool
    ensures { NoKeyword line.now result }
{
    if line.len() < 2 {
        return false;
    }
    let last = line.len() - 2;
    let starts = |i: usize| starts_keyword(line[i], line[i + 1], line[i + 2]);
    blocks::first_by_blocks::<16, _>(0, last, &starts) < last
        || line[last] == b'i' && line[last + 1] == b'f'
}

// Whether a keyword stands in the line's code.
fn has_keyword(line: &[u8], class: &[u8]) -> bool
    requires { length line.now ≤ length class.now }
    ensures { result ≡ has_word keywords (cells_of line.now class.now) }
{
    if !may_have_keyword(line) {
        return false;
    }
    let mut start = 0;
    for i in 0..line.len() {
        let Some(next) = word_step(line, start, i, class[i]) else {
            return true;
        };
        start = next;
    }
    is_keyword(&line[start..])
}

// A place before which a line is cut, or its length, and the state after the byte there.
// kept: the new form is no plainer: the last piece ends at the length, as the others do at their cuts
#[derive(Clone, Copy)]
pub struct Cut {
    pub place: usize,
    pub after: OpState,
}

// The strength that a line is broken at, and the first operator of that strength.
#[derive(Clone, Copy)]
pub struct Break {
    pub strength: u8,
    pub cut: Cut,
}

// Whether an operator of strength a takes over from what was found so far; one of strength 0 never does.
fn is_looser(a: u8, b: Option<Break>) -> bool
    requires { Strong b }
    ensures { IsLooser a (strength_of b) result }
{
    a != 0 && b.is_none_or(|b| a < b.strength)
}

fn break_at(i: usize, strength: u8, after: OpState) -> Break
    ensures { result ≡ broken_at i strength after }
{
    Break {
        strength,
        cut: Cut { place: i, after },
    }
}

// What a pass over the whole line says.
fn end_pass(depth: usize, b: Option<Break>) -> Option<Break>
    ensures { PassEnd depth b result }
{
    if depth == 0 { b } else { None }
}

// Where a line is broken: nowhere if it has a keyword or its brackets don't match, else by one pass for its brackets
// and operators.
pub fn find_break(table: &[u8; Strengths::LENGTH], line: &[u8], class: &[u8]) -> Option<Break>
    requires { Breakable line.now class.now }
    ensures { BreakFound (strengths_in table.now) line.now class.now result }
{
    if has_keyword(line, class) {
        return None;
    }
    let mut b = None;
    let mut s = OpState::default();
    let mut depth = 0;
    let mut i = 0;
    // kept: a range is no plainer, since a run is passed at once
    loop {
        let run = run_at(line, class, i, s);
        s.operand = run.operand;
        i = run.end;
        if line.len() <= i {
            return end_pass(depth, b);
        }
        depth = balance(depth, class[i], line[i])?;
        if s.step(class[i], line[i]) {
            let token = token_at(s.operand, &line[i..]);
            if let Some(operator) = s.take(token) {
                let strength = operator.strength(table);
                if is_looser(strength, b) {
                    b = Some(break_at(i, strength, s));
                }
            }
        }
        i += 1;
    }
}

// The next operator of a strength, from a place on.
pub fn next_op(
    table: &[u8; Strengths::LENGTH],
    line: &[u8],
    class: &[u8],
    strength: u8,
    from: usize,
    start: OpState,
) -> Cut
    requires { Cutting strength line.now class.now from start }
    ensures { NextOp (strengths_in table.now) strength line.now class.now from
        start result }
{
    let mut s = start;
    let mut i = from;
    // kept: a range is no plainer, since a run is passed at once
    loop {
        let run = run_at(line, class, i, s);
        s.operand = run.operand;
        i = run.end;
        if line.len() <= i {
            return Cut { place: i, after: s };
        }
        if s.step(class[i], line[i]) {
            let token = token_at(s.operand, &line[i..]);
            if let Some(operator) = s.take(token) {
                if operator.strength(table) == strength {
                    return Cut { place: i, after: s };
                }
            }
        }
        i += 1;
    }
}
