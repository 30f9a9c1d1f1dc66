// What the splits by import and by operators share: columns, parts without the white space around them, a line written
// after others.
#![tactic(auto)]

ghost use Rattle.std.specs.Prelude.{◌+◌, ◌≤◌, ◌<◌, ◌^◌, ◌≡◌, length};
ghost use Rattle.utf8.specs.Unicode.{decode, WellFormed};
ghost use Rattle.rules.specs.Lines.{as_str};
ghost use Rattle.split.specs.Measure.{ByteMeasured, Measurable, Measured, Indent, IndentMeasured, Wide, Within};
ghost use Rattle.split.specs.Measure.{Short, Trimmed};
ghost use Rattle.split.specs.Text.{lay, LineRoom, LineWritten};

use buffer::pad::Pad;
use rules::{LineEnding, Strengths};
use utf8::Utf16Column;

// How a line is laid out: at which level, in which width, with which ruler tab, and where it is broken the line ending
// and the strengths of the operators.
#[derive(Clone, Copy)]
pub struct Layout {
    pub level: usize,
    pub max: Utf16Column,
    pub ruler: u8,
    pub ending: LineEnding,
    pub strengths: Strengths,
}

// The column after a byte, at a ruler above 0: a tab goes to the next multiple, other bytes add the units of the
// character that they start.
fn column_after(ruler: u8, from: usize, b: u8) -> usize
    requires { (0 < ruler) × (from + 256 < 2 ^ 64) }
    ensures { ByteMeasured ruler from b result }
{
    if b == b'\t' {
        let step = ruler as usize;
        from + (step - from % step)
    } else {
        from + utf8::units(b)
    }
}

// The column that a part reaches at a ruler above 0.
fn measure_tabs(ruler: u8, from: Utf16Column, part: &[u8]) -> Utf16Column
    requires { (0 < ruler) × Measurable from.0 part.now }
    ensures { Measured ruler from.0 part.now result.0 }
{
    let mut column = from.0;
    for &b in part {
        column = column_after(ruler, column, b);
    }
    Utf16Column(column)
}

// The column that a part reaches which starts at column from. Whatever measures a line uses this.
pub fn measure_from(ruler: u8, from: Utf16Column, part: &[u8]) -> Utf16Column
    requires { Measurable from.0 part.now }
    ensures { Measured ruler from.0 part.now result.0 }
{
    if ruler == 0 {
        Utf16Column(from.0 + utf8::width(part).0)
    } else {
        measure_tabs(ruler, from, part)
    }
}

// The column after an indent of so many levels, at a ruler above 0: each level after the first adds what the second
// adds.
fn indent_tabs(ruler: u8, indent: &[u8], levels: usize) -> Utf16Column
    requires { (0 < ruler) × Indent indent.now levels }
    ensures { IndentMeasured ruler indent.now levels result.0 }
{
    if levels == 0 {
        return Utf16Column(0);
    }
    let first = measure_tabs(ruler, Utf16Column(0), indent);
    let second = measure_tabs(ruler, first, indent);
    Utf16Column(first.0 + (levels - 1) * (second.0 - first.0))
}

// The column after an indent of so many levels. At ruler 0 a space or a tab takes one.
pub fn indent_column(ruler: u8, indent: &[u8], levels: usize) -> Utf16Column
    requires { Indent indent.now levels }
    ensures { IndentMeasured ruler indent.now levels result.0 }
{
    if ruler == 0 {
        Utf16Column(levels * indent.len())
    } else {
        indent_tabs(ruler, indent, levels)
    }
}

// Whether the line, with its indent, is measured wider than the width.
fn measured_wide(s: Layout, indent: &[u8], line: &[u8]) -> bool
    requires indent { Indent indent.now s.level }
    requires well_formed { WellFormed line.now × (length line.now < 2 ^ 31) }
    ensures { Wide s.ruler indent.now s.level line.now s.max.0 result }
{
    let pad = indent_column(s.ruler, indent, s.level);
    let end = measure_from(s.ruler, pad, line);
    s.max < end
}

// Whether a line is known to fit without being measured, its indent included: a character takes no more columns than
// bytes, a tab at most the ruler more.
pub fn is_short(line: &[u8], indent: &[u8], level: usize, ruler: u8, max: usize) -> bool
    requires indent { Indent indent.now level }
    requires well_formed { WellFormed line.now × (length line.now < 2 ^ 31) }
    ensures { Short ruler indent.now level line.now max result }
{
    let bytes = level * indent.len() + line.len();
    bytes * (ruler as usize + 1) <= max
}

// The same as `measured_wide`. Most lines are not measured.
pub fn over_wide(s: Layout, indent: &[u8], line: &[u8]) -> bool
    requires indent { Indent indent.now s.level }
    requires well_formed { WellFormed line.now × (length line.now < 2 ^ 31) }
    ensures { Wide s.ruler indent.now s.level line.now s.max.0 result }
{
    !is_short(line, indent, s.level, s.ruler, s.max.0) && measured_wide(s, indent, line)
}

// A part of a slice: where it starts and ends.
#[derive(Clone, Copy)]
pub struct Part {
    pub start: usize,
    pub end: usize,
}

// The part from a up to e, without the white space at its ends.
pub fn trim_part(s: &[u8], a: usize, e: usize) -> Part
    requires { Within s.now a e }
    ensures { Trimmed s.now a e result }
{
    let p = &s[a..e];
    let n = utf8::trim_start(p);
    let m = utf8::trim_end(&p[n..]);
    Part {
        start: a + n,
        end: a + n + m,
    }
}

// Where a line starts, and the next place after it.
#[derive(Clone, Copy, PartialEq, Eq, Debug)]
pub struct NewLine {
    pub start: usize,
    pub next: usize,
}

// Writes a line after others: the line ending before it comes first.
pub fn write_line(
    model: &[u8],
    out: &mut [u8],
    at: usize,
    s: Layout,
    indent: &[u8],
    line: &[u8],
) -> NewLine
    requires { LineRoom (as_str s.ending) indent.now s.level line.now at }
    ensures { LineWritten (as_str s.ending) (lay indent.now s.level line.now)
        model.now out.old out.new at result }
{
    let start = text::append_ending(model, out, at, s.ending);
    let pad = Pad {
        indent,
        levels: s.level,
    };
    let next = compare::append_indented(model, out, start, pad, line);
    NewLine { start, next }
}
