// split_operation: an over-wide expression broken before its loosest operators.
#![tactic(auto)]

pub mod pass;

ghost use Rattle.std.specs.Prelude.{◌≡◌, ◌+◌};
ghost use Rattle.utf8.specs.Unicode.{decode};
ghost use Rattle.rules.specs.Lines.{as_str};
ghost use Rattle.rules.specs.Options.{Options};
ghost use Rattle.rules.specs.Strengths.{strengths_in};
ghost use Rattle.rules.specs.SplitOperation.{split_operation};
ghost use Rattle.split.specs.Measure.{InUse};
ghost use Rattle.split_operation.specs.Operation.{LineFits, Broken, line_of, RestFits, RestWritten, RoundBreak};
ghost use Rattle.split_operation.specs.Operation.{FirstBroken, OperationFits};

use buffer::pad::Pad;
use operators::MAX_STRENGTH;
use operators::first::has_operator;
use pass::{Break, find_break, next_op};
use split::{Layout, NewLine, over_wide, trim_part, write_line};

// The line whole, or the lines that it is broken into, written: the last of them.
// kept: the new form is no plainer: both ways have a last line, and an Option would lose one
#[derive(Clone, Copy, PartialEq, Eq, Debug)]
pub enum OperationSplit {
    Whole(NewLine),
    Broken(NewLine),
}

fn line_of(r: OperationSplit) -> NewLine
    ensures { result ≡ line_of r }
{
    match r {
        OperationSplit::Whole(w) | OperationSplit::Broken(w) => w,
    }
}

// How a first line is broken, and how often.
#[derive(Clone, Copy)]
struct Breaking {
    layout: Layout,
    rounds: usize,
}

// Where a line is broken, and the line that its first piece is written as.
#[derive(Clone, Copy)]
struct Rest {
    found: Break,
    first: NewLine,
}

// kept: line and class, layout and indent are not one struct each: no plainer, since of a struct that holds a lent
// slice the contracts say `k.entry.line.now` (tried), and the facts on both are one record here already

// The pieces of a line from an operator on, each a line, one level deeper than the first, which was written last.
fn write_rest(
    line: &[u8],
    class: &[u8],
    rest: Rest,
    s: Layout,
    indent: &[u8],
    model: &[u8],
    out: &mut [u8],
) -> NewLine
    requires { RestFits (strengths_in s.strengths.table) rest.found.strength line.now class.now
        rest.found.cut indent.now (s.level + 1) (as_str s.ending) rest.first }
    ensures { RestWritten (strengths_in s.strengths.table) rest.found.strength line.now class.now
        rest.found.cut indent.now (s.level + 1) (as_str s.ending)
        model.now out.old out.new rest.first result }
{
    let under = Layout {
        level: s.level + 1,
        ..s
    };
    let strength = rest.found.strength;
    let mut c = rest.found.cut;
    let mut r = rest.first;
    // kept: a range is no plainer, since a step takes a piece up to the next operator
    while c.place < line.len() {
        let from = c.place;
        c = next_op(&s.strengths.table, line, class, strength, from + 1, c.after);
        let p = trim_part(line, from, c.place);
        r = write_line(model, out, r.next, under, indent, &line[p.start..p.end]);
    }
    r
}

// Where a first line is broken: nowhere if it fits, if no rounds are left, or if none of its bytes starts an operator,
// which is told at once.
fn round_break(line: &[u8], class: &[u8], s: Layout, rounds: usize, indent: &[u8]) -> Option<Break>
    requires { LineFits line.now class.now indent.now s.level }
    ensures { RoundBreak (strengths_in s.strengths.table) s.ruler indent.now s.level s.max.0
        rounds line.now class.now result }
{
    if rounds == 0 || !over_wide(s, indent, line) || !has_operator(line) {
        return None;
    }
    find_break(&s.strengths.table, line, class)
}

// A line, its first piece broken again while it is too wide and rounds are left.
fn break_first(
    line: &[u8],
    class: &[u8],
    b: Breaking,
    indent: &[u8],
    model: &[u8],
    out: &mut [u8],
    at: usize,
) -> OperationSplit
    requires { OperationFits line.now class.now indent.now b.layout.level (as_str b.layout.ending) at }
    ensures { FirstBroken (strengths_in b.layout.strengths.table) b.layout.ruler line.now indent.now
        b.layout.level (as_str b.layout.ending) b.layout.max.0 b.rounds
        model.now out.old out.new at result }
{
    let s = b.layout;
    match round_break(line, class, s, b.rounds, indent) {
        None => {
            let pad = Pad {
                indent,
                levels: s.level,
            };
            let next = compare::append_indented(model, out, at, pad, line);
            OperationSplit::Whole(NewLine { start: at, next })
        }
        Some(found) => {
            let p = trim_part(line, 0, found.cut.place);
            let l = &line[p.start..p.end];
            let k = &class[p.start..p.end];
            let fewer = Breaking {
                rounds: b.rounds - 1,
                ..b
            };
            let first = line_of(break_first(l, k, fewer, indent, model, out, at));
            let rest = Rest { found, first };
            OperationSplit::Broken(write_rest(line, class, rest, s, indent, model, out))
        }
    }
}

// An over-wide line of code and strings with its class bytes, broken before its loosest operators. Where there is
// nothing to break at, that is the line alone. The first piece of a break has only tighter operators, so there are no
// more rounds than strengths.
pub fn split_operation(
    line: &[u8],
    class: &[u8],
    s: Layout,
    indent: &[u8],
    model: &[u8],
    out: &mut [u8],
    at: usize,
) -> OperationSplit
    requires { OperationFits line.now class.now indent.now s.level (as_str s.ending) at }
    ensures { (o : Options) → InUse o indent.now s.ruler
        → Broken (as_str s.ending) (split_operation (strengths_in s.strengths.table) o s.max.0 s.level
        (decode line.now)) model.now out.old out.new at result }
{
    let b = Breaking {
        layout: s,
        rounds: MAX_STRENGTH,
    };
    break_first(line, class, b, indent, model, out, at)
}
