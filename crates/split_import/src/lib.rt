// split_import: the names of an over-wide import, refilled over lines.
#![tactic(auto)]

ghost use Rattle.std.specs.Prelude.{◌≡◌, ◌&&◌, [], ◌∷◌, ◌++◌, ◌+◌, ◌-◌, ◌≤◌, ◌<◌, ◌^◌, eqb, ltb, length};
ghost use Rattle.buffer.specs.Buffer.{part};
ghost use Rattle.compare.specs.Common.{Compared};
ghost use Rattle.utf8.specs.Unicode.{decode};
ghost use Rattle.rules.specs.Options.{Options};
ghost use Rattle.rules.specs.Lines.{as_str};
ghost use Rattle.rules.specs.Scan.{is_code, classify};
ghost use Rattle.rules.specs.ClassBytes.{class_of};
ghost use Rattle.rules.specs.SplitImport.{names_of, split_import};
ghost use Rattle.rules.specs.declared.Carry.{Carry};
ghost use Rattle.split.specs.Measure.{InUse, Within};
ghost use Rattle.split.specs.Text.{lay};
ghost use Rattle.split_import.specs.Names.{FoundCode, NameLen, parts, CountableNames};
ghost use Rattle.split_import.specs.Names.{Spaced, NamePlace, Named, NameMeasured, NameFits, OnNewLine, Added};
ghost use Rattle.split_import.specs.Names.{NamesFit, NamesWritten};
ghost use Rattle.split_import.specs.Import.{HeadFits, HeadWritten, Braces, parts_of, Given, ImportFits};

use basics::starts_with_keyword;
use buffer::pad::Pad;
use rules::class_byte::CODE;
use split::{Layout, Part, indent_column, measure_from, trim_part, write_line};
use utf8::Utf16Column;

// The lines that an import is split into, written: the next place, where the last line starts, and how many blank names
// are dropped.
#[derive(Clone, Copy)]
pub struct ImportLines {
    pub next: usize,
    pub last: usize,
    pub blanks: usize,
}

// Whether the byte b with the class byte k is the code character c.
fn code_is(c: u8, b: u8, k: u8) -> bool
    ensures { result ≡ (is_code (class_of k) && eqb b c) }
{
    k == CODE && b == c
}

// kept: line and class, layout and indent are not one struct each: no plainer, since of a struct that holds a lent
// slice the contracts say `k.entry.line.now` (tried); the facts on layout and indent are one record already, and the
// one on line and class alone, here, is a single bound

// Where the first code character c stands.
fn find_code(line: &[u8], class: &[u8], c: u8) -> Option<usize>
    requires { length line.now ≤ length class.now }
    ensures { FoundCode c line.now class.now result }
{
    let end = line.len();
    let start = blocks::past_blocks::<16, _>(0, end, &|i| line[i] == c);
    let i = blocks::first_from(start, end, &move |i| code_is(c, line[i], class[i]));
    (i < end).then_some(i)
}

// How many bytes stand before the first comma.
// kept: no plainer: `position(..).unwrap_or(s.len())` is a line too, and `FirstFrom` is what the laws are of
fn name_len(s: &[u8]) -> usize
    ensures { NameLen s.now result }
{
    blocks::first_from(0, s.len(), &|i| s[i] == b',')
}

// Whether fewer than two pieces are names.
fn few_names(s: &[u8]) -> bool
    requires { CountableNames s.now }
    ensures { result ≡ ltb (length (names_of (parts s.now))) 2 }
{
    let mut some = false;
    for piece in s.split(|&b| b == b',') {
        let p = trim_part(piece, 0, piece.len());
        if p.start != p.end {
            if some {
                return false;
            }
            some = true;
        }
    }
    true
}

// Whether the part stands between a space and a comma.
fn is_spaced(s: &[u8], p: Part) -> bool
    requires { Within s.now p.start p.end }
    ensures { Spaced s.now p result }
{
    0 < p.start && p.end < s.len() && s[p.start - 1] == b' ' && s[p.end] == b','
}

// A name, and its comma, after others on its line: at once where it stands so among the names.
fn put_name(model: &[u8], out: &mut [u8], at: usize, names: &[u8], p: Part) -> usize
    requires within { Within names.now p.start p.end }
    requires start_bound { at + (p.end - p.start + 2) < 2 ^ 64 }
    ensures { Compared model.now out.old out.new at
        (32 ∷ (part names.now p.start p.end ++ 44 ∷ [])) result }
{
    if is_spaced(names, p) {
        return compare::append(model, out, at, &names[p.start - 1..p.end + 1]);
    }
    let n = compare::append(model, out, at, b" ");
    let m = compare::append(model, out, n, &names[p.start..p.end]);
    compare::append(model, out, m, b",")
}

// A name, and its comma, on a line of its own.
fn put_line(model: &[u8], out: &mut [u8], at: usize, s: Layout, indent: &[u8], name: &[u8]) -> usize
    requires { NamePlace (as_str s.ending) indent.now s.level name.now at }
    ensures { Compared model.now out.old out.new at
        (as_str s.ending ++ lay indent.now s.level (name.now ++ 44 ∷ [])) result }
{
    let line = write_line(model, out, at, s, indent, name);
    compare::append(model, out, line.next, b",")
}

// The column after a name and its comma.
fn name_column(ruler: u8, from: Utf16Column, name: &[u8]) -> Utf16Column
    requires { Named from.0 name.now }
    ensures { NameMeasured ruler from.0 name.now result.0 }
{
    let end = measure_from(ruler, from, name);
    Utf16Column(end.0 + 1)
}

// The lines of names so far: the place reached, and the column reached on the newest of them.
#[derive(Clone, Copy)]
pub struct Filled {
    pub at: usize,
    pub column: Option<Utf16Column>,
}

fn new_line(
    model: &[u8],
    out: &mut [u8],
    f: Filled,
    s: Layout,
    indent: &[u8],
    name: &[u8],
) -> Filled
    requires { NameFits indent.now s.level (as_str s.ending) name.now f }
    ensures { OnNewLine s.ruler indent.now s.level (as_str s.ending) name.now
        model.now out.old out.new f result }
{
    let column = name_column(s.ruler, indent_column(s.ruler, indent, s.level), name);
    Filled {
        at: put_line(model, out, f.at, s, indent, name),
        column: Some(column),
    }
}

// One more name: on the newest line if the width holds it, else on a line of its own.
fn add_name(
    model: &[u8],
    out: &mut [u8],
    f: Filled,
    s: Layout,
    indent: &[u8],
    names: &[u8],
    p: Part,
) -> Filled
    requires within { Within names.now p.start p.end }
    requires name_fits { NameFits indent.now s.level (as_str s.ending) (part names.now p.start p.end) f }
    ensures { Added s.ruler indent.now s.level (as_str s.ending) s.max.0
        (part names.now p.start p.end) model.now out.old out.new f result }
{
    let name = &names[p.start..p.end];
    match f.column {
        Some(newest) => {
            let column = name_column(s.ruler, Utf16Column(newest.0 + 1), name);
            if column <= s.max {
                Filled {
                    at: put_name(model, out, f.at, names, p),
                    column: Some(column),
                }
            } else {
                new_line(model, out, f, s, indent, name)
            }
        }
        None => new_line(model, out, f, s, indent, name),
    }
}

// The lines of names, written: the next place, and how many pieces are blank.
#[derive(Clone, Copy)]
pub struct NameLines {
    pub next: usize,
    pub blanks: usize,
}

// The lines of the names between commas, each after a line ending. A blank piece is dropped.
fn write_names(
    names: &[u8],
    s: Layout,
    indent: &[u8],
    model: &[u8],
    out: &mut [u8],
    at: usize,
) -> NameLines
    requires { NamesFit names.now indent.now s.level (as_str s.ending) at }
    ensures { NamesWritten s.ruler names.now indent.now s.level (as_str s.ending)
        s.max.0 model.now out.old out.new at result }
{
    let mut f = Filled { at, column: None };
    let mut blanks = 0;
    let mut a = 0;
    // kept: `split` was tried, and the call takes 0.4 to 0.5 % more instructions; it gives no places, which `add_name`
    // takes to look at both sides of a name, so that `a` was counted beside it as here
    while a <= names.len() {
        let e = a + name_len(&names[a..]);
        let p = trim_part(names, a, e);
        a = e + 1;
        if p.start == p.end {
            blanks += 1;
        } else {
            f = add_name(model, out, f, s, indent, names, p);
        }
    }
    NameLines { next: f.at, blanks }
}

// The first line: the text before the brace, trimmed at its end, a space and the brace.
fn write_head(
    model: &[u8],
    out: &mut [u8],
    at: usize,
    indent: &[u8],
    level: usize,
    head: &[u8],
) -> usize
    requires { HeadFits head.now indent.now level at }
    ensures { HeadWritten head.now indent.now level model.now out.old
        out.new at result }
{
    let n = utf8::trim_end(head);
    let pad = Pad {
        indent,
        levels: level,
    };
    let m = compare::append_indented(model, out, at, pad, &head[..n]);
    compare::append(model, out, m, b" {")
}

// The lines of an import whose braces stand where the part starts and ends; under two names, it isn't split.
fn write_import(
    line: &[u8],
    braces: Part,
    s: Layout,
    indent: &[u8],
    model: &[u8],
    out: &mut [u8],
    at: usize,
) -> Option<ImportLines>
    requires { Braces line.now braces.start braces.end indent.now s.level (as_str s.ending) at }
    ensures { (o : Options) → InUse o indent.now s.ruler
        → Given (parts_of o s.max.0 s.level line.now braces.start braces.end) (as_str s.ending)
        model.now out.old out.new at result }
{
    let names = &line[braces.start + 1..braces.end];
    if few_names(names) {
        return None;
    }
    let n = write_head(model, out, at, indent, s.level, &line[..braces.start]);
    let under = Layout {
        level: s.level + 1,
        ..s
    };
    let m = write_names(names, under, indent, model, out, n);
    let w = write_line(model, out, m.next, s, indent, &line[braces.end..]);
    Some(ImportLines {
        next: w.next,
        last: w.start,
        blanks: m.blanks,
    })
}

// An over-wide line, if it is an import with braces and at least two names: its names refilled over lines, written from
// the place at on. Else nothing is written.
pub fn split_import(
    line: &[u8],
    class: &[u8],
    s: Layout,
    indent: &[u8],
    model: &[u8],
    out: &mut [u8],
    at: usize,
) -> Option<ImportLines>
    requires { ImportFits line.now class.now indent.now s.level (as_str s.ending) at }
    ensures { (o : Options) → InUse o indent.now s.ruler
        → Given (split_import o s.max.0 s.level (classify Carry.Code (decode line.now)))
        (as_str s.ending) model.now out.old out.new at result }
{
    if !starts_with_keyword(line, b"import") {
        return None;
    }
    let start = find_code(line, class, b'{')?;
    let a = start + 1;
    let end = a + find_code(&line[a..], &class[a..], b'}')?;
    write_import(line, Part { start, end }, s, indent, model, out, at)
}
