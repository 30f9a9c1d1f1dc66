// text_kind_at: a source's lines are read for what they leave open, up to the line asked for, and that line for its
// marks, up to the column.
#![tactic(auto)]

ghost use Rattle.std.specs.Prelude.{◌≡◌, ◌+◌, ◌<◌, ◌^◌, length, get_or, drop};
ghost use Rattle.utf8.specs.Unicode.{decode};
ghost use Rattle.rules.specs.Scan.{begin};
ghost use Rattle.rules.specs.Refusals.{tested};
ghost use Rattle.rules.specs.TextKind.{kind_tests, in_interpolation, class_kind, text_kind_at, kind_outcome_of, kind_answer};
ghost use Rattle.basics.specs.Depth.{carry_depth};
ghost use Rattle.line_ends.specs.LineEnds.{LineEnd};
ghost use Rattle.text_kind.specs.Kind.{byte_kinds, line_at, SourceFits};

use line_ends::{line_end, without_cr};
use rules::{Carry, Class, Kind, Mode, Refusal, TextKind};
use utf8::CharColumn;

// The bytes of scratch for each of the source's, beside 256.
pub const KIND_SCRATCH: usize = 8;

// Whether a character before which the mode is m is inside `${..}`.
#[tactic(auto, unfolding(rules::specs::TextKind::in_interpolation))]
pub fn in_interpolation(m: Mode) -> bool
    ensures { result ≡ in_interpolation m }
{
    matches!(m, Mode::Interp(..) | Mode::Inner(..))
}

#[tactic(auto, unfolding(rules::specs::TextKind::class_kind, rules::specs::Basics::choose))]
pub fn class_kind(class: Class, inside: bool) -> TextKind
    ensures { result ≡ class_kind class inside }
{
    match (class, inside) {
        (Class::Str, false) => TextKind::Str,
        (Class::LineComment | Class::BlockComment, _) => TextKind::Comment,
        _ => TextKind::Code,
    }
}

// The kind of the character at a column of a line, by its first byte: what the mark there is part of, and whether the
// mode before it is inside `${..}`. A line has no more characters than bytes.
fn kind_in_line(line: &[u8], carry: Carry, column: CharColumn) -> TextKind
    requires { carry_depth carry + length line.now + 1 < 2 ^ 32 }
    ensures { result ≡ get_or (byte_kinds (begin carry) line.now) column.0 TextKind.Code }
{
    if line.len() <= column.0 {
        return TextKind::Code;
    }
    let mut t = marks::begin(carry);
    let mut left = column.0;
    // kept: every byte has a mark, told by what stands from it on, so that the place is needed; `char_indices` is of a
    // `str`, and passes over the bytes within a character
    for i in 0..line.len() {
        let before = t.mode;
        t = marks::next_mark(&line[i..], t);
        if utf8::is_tail(line[i]) {
            continue;
        }
        if left == 0 {
            return class_kind(t.class, in_interpolation(before));
        }
        left -= 1;
    }
    TextKind::Code
}

// The line that starts at `at` and ends at `end`: a CR goes only before an LF.
pub fn line_at(source: &[u8], at: usize, end: usize) -> &[u8]
    requires { LineEnd source.now at end }
    ensures { result.now ≡ line_at (drop at source.now) }
{
    if end < source.len() {
        without_cr(&source[at..end])
    } else {
        &source[at..]
    }
}

// What the character at a line and a column of a well-formed source is part of. A place past the end is code.
pub fn text_kind_at(source: &[u8], line: usize, column: CharColumn, scratch: &mut [u8]) -> TextKind
    requires { SourceFits source.now scratch.old }
    ensures { result ≡ text_kind_at (decode source.now) line column.0 }
{
    let mut carry = Carry::Code;
    let mut at = 0;
    // kept: an iterator of lines is no plainer: it would serve this loop alone, and be longer than it, since
    // `text_kinds` needs each line's place, and `lines` reads one line more behind the last LF and takes a last CR away
    for _ in 0..line {
        let end = line_end(source, at);
        if source.len() <= end {
            return TextKind::Code;
        }
        carry = scan::classify(without_cr(&source[at..end]), carry, scratch);
        at = end + 1;
    }
    let end = line_end(source, at);
    kind_in_line(line_at(source, at, end), carry, column)
}

// Refusals 1, 3 and 4.
pub fn test(source: &[u8], scratch: usize) -> Result<(), Refusal>
    ensures { result ≡ tested (kind_tests source.now scratch) }
{
    answer::test_length(source)?;
    answer::test_bytes(source, KIND_SCRATCH, scratch)
}

// The kind, or the first refusal that applies.
fn outcome_of(
    source: &[u8],
    line: usize,
    column: CharColumn,
    scratch: &mut [u8],
) -> Result<TextKind, Refusal>
    ensures { result ≡ kind_outcome_of source.now line column.0 (length scratch.old) }
{
    test(source, scratch.len())?;
    Ok(text_kind_at(source, line, column, scratch))
}

// What a host is told.
pub fn answer(source: &[u8], line: usize, column: CharColumn, scratch: &mut [u8]) -> Kind
    ensures { result ≡ kind_answer (kind_outcome_of source.now line column.0
        (length scratch.old)) }
{
    outcome_of(source, line, column, scratch).into()
}
