// A list from its start to its end: comments, which go from `#` to the line's end, and cases.
#![tactic(auto)]

ghost use Rattle.std.specs.Prelude.{◌≡◌, ◌≤◌, length};
ghost use Rattle.replay_run.specs.Stored.{CaseIn};
ghost use Rattle.replay_run.specs.Replay.{agrees as agreesWith, agreed, differed, CountsFit, StepReady, Advanced};
ghost use Rattle.replay_run.specs.Replay.{from_start, replayed};

use crate::list::{Case, case_at};
use call::Request;
use rules::{OptionNumbers, Strengths};

mod list;

// How far the list is read, how many sources stood there, and how many of them gave another text.
#[derive(Clone, Copy)]
pub struct Progress {
    pub at: usize,
    pub sources: usize,
    pub differ: usize,
}

impl Progress {
    fn agreed(self, next: usize) -> Self
        requires { CountsFit self }
        ensures { result ≡ agreed self next }
    {
        Progress {
            at: next,
            sources: self.sources + 1,
            ..self
        }
    }

    // The first ten that differ are named by their number.
    fn differed<P: Print>(self, out: &P, next: usize) -> Self
        requires { CountsFit self }
        ensures { result ≡ differed self next }
    {
        let number = self.sources + 1;
        if self.differ < 10 {
            name_source(out, number);
        }
        Progress {
            at: next,
            sources: number,
            differ: self.differ + 1,
        }
    }
}

// Prints that a source differs. Where that can't be written, the count still tells it.
fn name_source<P: Print>(out: &P, number: usize) {
    let _ = println!(out; "source {number} differs");
}

// Whether the case's source gives its answer.
fn agrees(list: &[u8], c: Case, output: &mut [u8], scratch: &mut [u8]) -> bool
    requires { CaseIn list.now c }
    ensures { result ≡ agreesWith list.now c (length output.old) (length scratch.old) }
{
    let source = c.from;
    let indent = source + c.source;
    let stored = indent + c.indent;
    let end = stored + c.answer;
    let numbers = OptionNumbers {
        width_set: c.width_set as u64,
        width: c.width as u64,
        line_ending: c.line_ending as u64,
        final_newline: c.final_newline as u64,
        ruler_tab: 0,
    };
    let strengths = Strengths::BUILT_IN;
    let request = Request {
        source: &list[source..indent],
        indent: &list[indent..stored],
        numbers,
        strengths: &strengths.table,
    };
    match call::format(request, output, &mut [], scratch) {
        Ok(text) => check::same(&output[..text.length], &list[stored..end]),
        Err(_) => false,
    }
}

// One comment, or one case. A case that the list's end cuts off differs.
fn step<P: Print>(
    out: &P,
    list: &[u8],
    p: Progress,
    output: &mut [u8],
    scratch: &mut [u8],
) -> Progress
    requires { StepReady list.now p }
    ensures { Advanced list.now (length output.old) (length scratch.old) p result }
{
    if list[p.at] == b'#' {
        let end = line_ends::line_end(list, p.at);
        return Progress { at: end + 1, ..p };
    }
    let c = case_at(list, p.at);
    let size = c.source + c.indent + c.answer;
    if list.len() - c.from <= size {
        return p.differed(out, list.len());
    }
    let next = c.from + size + 1;
    if agrees(list, c, output, scratch) {
        return p.agreed(next);
    }
    p.differed(out, next)
}

pub fn replay<P: Print>(out: &P, list: &[u8], output: &mut [u8], scratch: &mut [u8]) -> Progress
    requires { length list.now ≤ 4294967296 }
    ensures { result ≡ replayed (length list.now) list.now (length output.old)
        (length scratch.old) from_start }
{
    let mut p = Progress {
        at: 0,
        sources: 0,
        differ: 0,
    };
    // kept: a range is no plainer, since a step takes a comment or a case, however long
    while p.at < list.len() {
        p = step(out, list, p, output, scratch);
    }
    p
}
