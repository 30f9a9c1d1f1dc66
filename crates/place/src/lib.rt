// The line that goes on, put into the text: joined to the newest line, or indented, or split.
#![tactic(auto)]

ghost use Rattle.std.specs.Prelude.{◌≡◌, true, ◌&&◌, ◌+◌, ◌*◌, ◌≤◌, ◌<◌, ◌^◌, length, ◌++◌};
ghost use Rattle.rules.specs.Basics.{choose};
ghost use Rattle.utf8.specs.Unicode.{decode, trim_end, WellFormed};
ghost use Rattle.buffer.specs.Repeat.{times};
ghost use Rattle.rules.specs.Lines.{as_str};
ghost use Rattle.text.specs.Text.{Adds, Joins, Ordered, far_place, is_joinable};
ghost use Rattle.rules.specs.Options.{measure};
ghost use Rattle.rules.specs.Else.{is_plain_else};
ghost use Rattle.rules.specs.Refusals.{max_source};
ghost use Rattle.rules.specs.Scan.{classify, all_code_or_str};
ghost use Rattle.rules.specs.declared.Carry.{Carry};
ghost use Rattle.split.specs.Measure.{Indent};
ghost use Rattle.place.specs.Placing.{GoesOn, Heads, Asks, Puts, spaced_by, placed_by, drops_blank, alone_in};
ghost use Rattle.place.specs.Placing.{break_width, fit_by, layout_of, Lays, Breaks};
ghost use Rattle.place.specs.Placing.{after_placed};

use format::words::Declaration;
use line::formatter::{Formatter, Prev};
use line::indent::LineIndent;
use line::style::Style;
use rules::LineEnding;
use split::{Layout, is_short, over_wide};
use split_import::split_import;
use split_operation::{OperationSplit, split_operation};
use text::{Adding, Last, Written};
use utf8::Utf16Column;

// How a line is put into the text: in which style, how many leading closers it has and how many levels are left after
// these popped, what the next line asks of it, and whether it is a marker.
#[derive(Clone, Copy)]
pub struct Placing {
    pub style: Style,
    pub closers: usize,
    pub levels: usize,
    pub own: Prev,
    pub marker: bool,
}

// The text after the line, and what the line adds to the counts.
#[derive(Clone, Copy)]
pub struct Placed {
    pub text: Written,
    pub imports: usize,
    pub blanks: usize,
}

// Where a line is put: the text so far, the level of the line's indent, whether an empty newest line goes first, and
// the width that the line may be broken at.
#[derive(Clone, Copy)]
pub struct Slot {
    pub text: Written,
    pub level: usize,
    pub drops: bool,
    pub width: Option<usize>,
}

// The levels left after the leading closers, and one more if the line continues the one before.
#[tactic(auto, unfolding(rules::specs::Basics::choose))]
fn level_of(levels: usize, continued: bool) -> usize
    requires { levels < max_source }
    ensures { result ≡ levels + choose continued 1 0 }
{
    levels + usize::from(continued)
}

// Whether a blank between this line and the one before goes: no bracket is open, and both declare the same.
#[tactic(auto, unfolding(rules::specs::Basics::choose))]
fn drops_blank(depth: usize, d: Option<Declaration>, before: Option<Declaration>) -> bool
    ensures { result ≡ drops_blank depth d before }
{
    depth == 0 && format::words::same_declaration(d, before)
}

// The line indented, alone. It is trimmed at its end.
fn push_one(
    line: &[u8],
    indent: LineIndent<'_>,
    ending: LineEnding,
    slot: Slot,
    model: &[u8],
    out: &mut [u8],
) -> Written
    requires level_le_max_source { slot.level ≤ max_source }
    requires well_formed { WellFormed line.now × (length line.now ≤ 2 * max_source) }
    requires line_value { trim_end (decode line.now) ≡ decode line.now }
    requires ordered { Ordered slot.text × (slot.text.at.0 ≤ far_place) }
    ensures { Adds (as_str ending) slot.drops
        (times slot.level indent.entry.bytes.now ++ decode line.now) model.now
        out.old slot.text out.new result }
{
    let how = Adding {
        ending,
        drops: slot.drops,
        levels: slot.level,
        tail: line.len(),
        joins: format::else_line::trimmed_takes_else(line),
    };
    text::push_line(model, out, slot.text, indent.bytes, line, how)
}

// kept: line and class, layout and indent are not one struct each: no plainer, since of a struct that holds a lent slice
// the contracts say `k.entry.line.now` (tried); `GoesOn` says all of line and class, and of a layout its level has a bound

// A plain else joined to the newest line.
fn join_one(line: &[u8], class: &[u8], model: &[u8], out: &mut [u8], t: Written) -> Written
    requires goes_on { GoesOn line.now class.now }
    requires ordered { Ordered t × (t.at.0 ≤ far_place) }
    ensures { Joins (decode line.now) model.now out.old t out.new result }
{
    let brace = format::else_line::ends_in_brace(line);
    text::join_else(model, out, t, line, brace)
}

// The line alone adds nothing to the counts.
fn alone(text: Written) -> Placed
    ensures { result ≡ alone_in text }
{
    Placed {
        text,
        imports: 0,
        blanks: 0,
    }
}

// The width that a line may be broken at, before its classes are looked at: a marker, a line that continues another and
// one with leading closers are not broken.
#[tactic(auto, unfolding(rules::specs::Basics::choose))]
fn break_width(width: Option<usize>, marker: bool, continued: bool, closers: usize) -> Option<usize>
    ensures { result ≡ break_width width marker continued closers }
{
    if continued || marker || closers != 0 {
        None
    } else {
        width
    }
}

// How a line is laid out at a level, and broken at a width.
fn layout(style: Style, level: usize, max: usize) -> Layout
    ensures { result ≡ layout_of style level max }
{
    Layout {
        level,
        max: Utf16Column(max),
        ruler: style.ruler,
        ending: style.ending,
        strengths: style.strengths,
    }
}

// The width that the line is broken at, if it is wider than that and all of it is code and strings.
fn fit_of(
    line: &[u8],
    class: &[u8],
    indent: LineIndent<'_>,
    style: Style,
    level: usize,
    width: Option<usize>,
) -> Option<usize>
    requires level_le_max_source { level ≤ max_source }
    requires goes_on { GoesOn line.now class.now }
    ensures { result ≡ fit_by width (measure style.ruler 0
        (times level indent.entry.bytes.now ++ decode line.now))
        (all_code_or_str (classify Carry.Code line.now)) }
{
    let max = width?;
    // kept: `over_wide` makes this test too, but without it here `the Rust's test sources` takes 0.7 % more instructions
    // (tried), since the layout is then made for every line
    if is_short(line, indent.bytes, level, style.ruler, max) {
        return None;
    }
    if over_wide(layout(style, level, max), indent.bytes, line) && scan::all_code_or_str(class) {
        Some(max)
    } else {
        None
    }
}

// The line laid out at its level: split where it is wider than the width and all of it is code and strings. Each way
// has one call, so that both are part of this function when it is compiled.
fn fit_line(
    line: &[u8],
    class: &[u8],
    indent: LineIndent<'_>,
    style: Style,
    slot: Slot,
    model: &[u8],
    out: &mut [u8],
) -> Placed
    requires level_le_max_source { slot.level ≤ max_source }
    requires goes_on { GoesOn line.now class.now }
    requires ordered { Ordered slot.text × (slot.text.at.0 ≤ far_place) }
    ensures { Lays style.ruler (choose (all_code_or_str (classify Carry.Code (decode line.now)))
        slot.width None) indent.entry.bytes.now style.strengths (decode line.now)
        slot.level model.now (as_str style.ending) slot.drops (length line.now)
        out.old slot.text result out.new }
{
    match fit_of(line, class, indent, style, slot.level, slot.width) {
        None => alone(push_one(line, indent, style.ending, slot, model, out)),
        Some(max) => {
            let s = layout(style, slot.level, max);
            break_line(line, class, s, indent, slot, model, out)
        }
    }
}

// The line indented, or split.
fn lay_line(
    line: &[u8],
    class: &[u8],
    indent: LineIndent<'_>,
    k: Placing,
    model: &[u8],
    out: &mut [u8],
    st: Formatter,
) -> Placed
    requires goes_on { GoesOn line.now class.now }
    requires heads { Heads line.now k }
    requires asks { Asks k st (length line.now) }
    ensures { Puts (placed_by k.marker (decode line.now)) indent.entry.bytes.now
        model.now (length line.now) k st out.old (after_placed st result)
        out.new }
{
    let continued = format::words::continues(line, k.closers, st.prev.brace);
    let slot = Slot {
        text: st.text,
        level: level_of(k.levels, continued),
        drops: drops_blank(st.nesting.depth, k.own.declares, st.prev.declares),
        width: break_width(k.style.width, k.marker, continued, k.closers),
    };
    fit_line(line, class, indent, k.style, slot, model, out)
}

// Whether the line is a plain else that the newest line can take.
fn joins_newest(line: &[u8], last: Last) -> bool
    requires { WellFormed line.now }
    ensures { result ≡ (is_plain_else (decode line.now) && is_joinable last) }
{
    format::else_line::is_plain_else(line) && text::is_joinable(last)
}

// A plain else is joined to the newest line if that can take it.
fn join_or_lay(
    line: &[u8],
    class: &[u8],
    indent: LineIndent<'_>,
    k: Placing,
    model: &[u8],
    out: &mut [u8],
    st: Formatter,
) -> Placed
    requires goes_on { GoesOn line.now class.now }
    requires heads { Heads line.now k }
    requires asks { Asks k st (length line.now) }
    ensures { Puts (spaced_by k.marker (decode line.now)) indent.entry.bytes.now
        model.now (length line.now) k st out.old (after_placed st result)
        out.new }
{
    if joins_newest(line, st.text.last) {
        alone(join_one(line, class, model, out, st.text))
    } else {
        lay_line(line, class, indent, k, model, out, st)
    }
}

// The record with the text after the line, and what the line adds to the counts.
fn after_placed(st: Formatter, p: Placed) -> Formatter
    requires imports_bound { st.imports + p.imports < 2 ^ 64 }
    requires blanks_bound { st.blanks + p.blanks < 2 ^ 64 }
    ensures { result ≡ after_placed st p }
{
    Formatter {
        text: p.text,
        imports: st.imports + p.imports,
        blanks: st.blanks + p.blanks,
        ..st
    }
}

// The record after the line that goes on was put into the text. There is one call of `after_placed`, after all ways:
// one in each of them takes more instructions for every line.
pub fn place_line(
    line: &[u8],
    class: &[u8],
    indent: LineIndent<'_>,
    k: Placing,
    model: &[u8],
    out: &mut [u8],
    st: Formatter,
) -> Formatter
    requires goes_on { GoesOn line.now class.now }
    requires heads { Heads line.now k }
    requires asks { Asks k st (length line.now) }
    ensures { Puts (spaced_by k.marker (decode line.now)) indent.entry.bytes.now
        model.now (length line.now) k st out.old result out.new }
{
    let p = join_or_lay(line, class, indent, k, model, out, st);
    after_placed(st, p)
}

// The line, all of it code and strings, broken: an import first, otherwise at its operators.
fn break_line(
    line: &[u8],
    class: &[u8],
    s: Layout,
    indent: LineIndent<'_>,
    slot: Slot,
    model: &[u8],
    out: &mut [u8],
) -> Placed
    requires level_le_max_source { s.level ≤ max_source }
    requires goes_on { GoesOn line.now class.now }
    requires ordered { Ordered slot.text × (slot.text.at.0 ≤ far_place) }
    requires line_value { all_code_or_str (classify Carry.Code line.now) ≡ true }
    ensures { Breaks s.ruler s.max.0 indent.entry.bytes.now s.strengths (decode line.now)
        s.level model.now (as_str s.ending) slot.drops (length line.now)
        out.old slot.text result out.new }
{
    let start = text::continue_text(model, out, slot.text, s.ending, slot.drops);
    let brace = format::else_line::ends_in_brace(line);
    match split_import(line, class, s, indent.bytes, model, out, start) {
        Some(m) => Placed {
            text: text::after_lines(m.last, m.next, brace),
            imports: 1,
            blanks: m.blanks,
        },
        None => match split_operation(line, class, s, indent.bytes, model, out, start) {
            OperationSplit::Broken(w) => alone(text::after_lines(w.start, w.next, brace)),
            OperationSplit::Whole(w) => {
                let joins = format::else_line::trimmed_takes_else(line);
                alone(text::after_lines(w.start, w.next, joins))
            }
        },
    }
}
