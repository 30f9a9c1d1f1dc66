// The text so far, in an output that may be too short or compared with a model (crate compare): lines are added at its
// end, and the newest can be cut back.
#![tactic(auto)]

ghost use Rattle.std.specs.Prelude.{◌≡◌, true, [], ◌++◌, ◌+◌, ◌<◌, ◌≤◌, ◌^◌, length};
ghost use Rattle.utf8.specs.Unicode.{decode};
ghost use Rattle.buffer.specs.Repeat.{times};
ghost use Rattle.compare.specs.Common.{Compared};
ghost use Rattle.compare.specs.Rows.{ending_of};
ghost use Rattle.rules.specs.Basics.{choose};
ghost use Rattle.rules.specs.Lines.{as_str};
ghost use Rattle.rules.specs.Options.{all_blank};
ghost use Rattle.text.specs.Text.{nothing, sep_by, alone_after, tail_of, newest_by, full_of, is_first, is_joinable};
ghost use Rattle.text.specs.Text.{after_lines, Ordered, Line, ElseLine, From, Adds, Joins, Continued};
ghost use Rattle.text.specs.Text.{Ended, Finished};

use buffer::pad::Pad;
use compare::ending::ending_bytes;
use rules::LineEnding;
use utf8::ByteOffset;

// The newest line of the text: none, an empty one, one that can take an else, any other.
// kept: an `Option` of the other three is no plainer: what asks, asks for one of the four, and nothing takes a line's
// kind out of it
#[derive(Clone, Copy, PartialEq, Eq)]
pub enum Last {
    Nothing,
    Empty,
    Joinable,
    Other,
}

// Lengths of the text: as it is (the place reached), with its newest line trimmed at its end, without its last empty
// lines, and without its newest line if that is empty; whether no line is left then; and the length of what is settled:
// no later line changes it.
#[derive(Clone, Copy)]
pub struct Written {
    pub at: ByteOffset,
    pub cut: usize,
    pub full: usize,
    pub below: usize,
    pub alone: bool,
    pub last: Last,
    pub settled: usize,
}

impl Written {
    // Nothing is written yet.
    pub fn new() -> Self
        ensures { result ≡ nothing }
    {
        Self {
            at: ByteOffset(0),
            cut: 0,
            full: 0,
            below: 0,
            alone: true,
            last: Last::Nothing,
            settled: 0,
        }
    }
}

pub fn is_first(last: Last) -> bool
    ensures { result ≡ is_first last }
{
    last == Last::Nothing
}

pub fn is_joinable(last: Last) -> bool
    ensures { result ≡ is_joinable last }
{
    last == Last::Joinable
}

// The line ending, from the place at on.
#[tactic(auto, unfolding(rules::specs::Lines::as_str))]
pub fn append_ending(model: &[u8], out: &mut [u8], at: usize, ending: LineEnding) -> usize
    requires { at + 2 < 2 ^ 64 }
    ensures { Compared model.now out.old out.new at (as_str ending) result }
{
    compare::append(model, out, at, ending_bytes(Some(ending)))
}

// What stands before a line: the line ending, but nothing before the first.
#[tactic(auto, unfolding(rules::specs::Basics::choose))]
fn ending_before(ending: LineEnding, first: bool) -> Option<LineEnding>
    ensures { ending_of result ≡ sep_by (as_str ending) first }
{
    (!first).then_some(ending)
}

// This, from the place at on.
#[tactic(auto, using(crate::proofs::StepLaws::sep_le))]
fn separate(model: &[u8], out: &mut [u8], at: usize, ending: LineEnding, first: bool) -> usize
    requires { at + 2 < 2 ^ 64 }
    ensures { Compared model.now out.old out.new at (sep_by (as_str ending) first)
        result }
{
    compare::append(model, out, at, ending_bytes(ending_before(ending, first)))
}

#[tactic(auto, unfolding(rules::specs::Basics::choose))]
fn stem_at(t: Written, drops: bool) -> usize
    requires { t.below ≤ t.at.0 }
    ensures { From drops t result }
{
    if drops { t.below } else { t.at.0 }
}

#[tactic(auto, unfolding(rules::specs::Basics::choose))]
fn stem_first(t: Written, drops: bool) -> bool
    ensures { result ≡ choose drops t.alone (is_first t.last) }
{
    if drops { t.alone } else { is_first(t.last) }
}

#[tactic(auto, unfolding(rules::specs::Basics::choose))]
fn alone_of(long: usize, first: bool) -> bool
    ensures { result ≡ alone_after long first }
{
    long == 0 && first
}

#[tactic(auto, unfolding(rules::specs::Basics::choose))]
fn tail_of(pad: usize, tail: usize) -> usize
    requires { pad + tail < 2 ^ 64 }
    ensures { result ≡ tail_of pad tail }
{
    if tail == 0 { 0 } else { pad + tail }
}

#[tactic(auto, unfolding(rules::specs::Basics::choose))]
fn kind_of(long: usize, joins: bool) -> Last
    ensures { result ≡ newest_by long joins }
{
    if joins {
        Last::Joinable
    } else if long == 0 {
        Last::Empty
    } else {
        Last::Other
    }
}

#[tactic(auto, unfolding(rules::specs::Basics::choose))]
fn full_of(long: usize, full: usize, at: usize) -> usize
    ensures { result ≡ full_of long full at }
{
    if long == 0 { full } else { at }
}

// How a line is added: the ending before it; whether an empty newest line goes first; the levels of its indent; its
// length trimmed at its end, without the indent; whether it can take an else.
#[derive(Clone, Copy)]
pub struct Adding {
    pub ending: LineEnding,
    pub drops: bool,
    pub levels: usize,
    pub tail: usize,
    pub joins: bool,
}

// One line more: the indent, levels times over, and line.
pub fn push_line(
    model: &[u8],
    out: &mut [u8],
    t: Written,
    indent: &[u8],
    line: &[u8],
    how: Adding,
) -> Written
    requires indent_value { all_blank indent.now ≡ true }
    requires line { Line line.now how.tail how.joins }
    requires ordered { Ordered t }
    requires line_bound { t.at.0 + 2 + (length (times how.levels indent.now) + length line.now) < 2 ^ 64 }
    ensures { Adds (as_str how.ending) how.drops
        (times how.levels indent.now ++ decode line.now) model.now
        out.old t out.new result }
{
    let from = stem_at(t, how.drops);
    let first = stem_first(t, how.drops);
    let ending = ending_before(how.ending, first);
    let pad = Pad {
        indent,
        levels: how.levels,
    };
    let next = compare::append_line(model, out, from, ending, pad, line);
    let indented = pad.len();
    let long = indented + line.len();
    let start = next - long;
    let kept = tail_of(indented, how.tail);
    Written {
        at: ByteOffset(next),
        cut: start + kept,
        full: full_of(long, t.full, next),
        below: full_of(long, from, next),
        alone: alone_of(long, first),
        last: kind_of(long, how.joins),
        settled: full_of(how.tail, t.settled, start),
    }
}

// A space and line, a trimmed else, after the newest line trimmed at its end. joins tells whether line ends in `}`.
pub fn join_else(model: &[u8], out: &mut [u8], t: Written, line: &[u8], joins: bool) -> Written
    requires else_line { ElseLine line.now joins }
    requires cut_le_at { t.cut ≤ t.at.0 }
    requires line_bound { t.at.0 + 1 + length line.now < 2 ^ 64 }
    ensures { Joins (decode line.now) model.now out.old t out.new result }
{
    let start = compare::append(model, out, t.cut, b" ");
    let next = compare::append(model, out, start, line);
    after_lines(t.settled, next, joins)
}

// The line ending before several new lines. Gives the place where the first of them starts.
pub fn continue_text(
    model: &[u8],
    out: &mut [u8],
    t: Written,
    ending: LineEnding,
    drops: bool,
) -> usize
    requires ordered { Ordered t }
    requires at_bound { t.at.0 + 2 < 2 ^ 64 }
    ensures { Continued (as_str ending) drops model.now out.old t out.new result }
{
    let from = stem_at(t, drops);
    let first = stem_first(t, drops);
    separate(model, out, from, ending, first)
}

// The record after several lines that reach up to next, the newest from last on. That is trimmed and not empty; joins
// tells whether it can take an else.
pub fn after_lines(last: usize, next: usize, joins: bool) -> Written
    ensures { result ≡ after_lines last next joins }
{
    Written {
        at: ByteOffset(next),
        cut: next,
        full: next,
        below: next,
        alone: false,
        last: kind_of(1, joins),
        settled: last,
    }
}

// The text without its last empty lines, with a last ending if asked. Gives its length.
pub fn end_text(
    model: &[u8],
    out: &mut [u8],
    t: Written,
    ending: LineEnding,
    newline: bool,
) -> usize
    requires { t.full + 2 < 2 ^ 64 }
    ensures { Ended (as_str ending) (choose newline (as_str ending) []) model.now out.old t
        out.new result }
{
    separate(model, out, t.full, ending, !newline)
}

// The same in an output: zeros after the text, or all zeros where it does not fit.
#[tactic(auto, using(crate::proofs::StepLaws::finish_short, crate::proofs::StepLaws::finish_whole))]
pub fn finish_text(out: &mut [u8], t: Written, ending: LineEnding, newline: bool) -> usize
    requires { t.full + 2 < 2 ^ 64 }
    ensures { Finished (as_str ending) (choose newline (as_str ending) []) out.old t out.new result }
{
    let n = end_text(b"", out, t, ending, newline);
    let room = out.len();
    if room < n {
        buffer::zero(out);
        return n;
    }
    buffer::finish(out, n);
    n
}
