// The kinds of lines.
ghost use Rattle.std.specs.Prelude.{◌≡◌, false, ◌||◌};
ghost use Rattle.std.specs.Option.{MatchOption};
ghost use Rattle.utf8.specs.Unicode.{WellFormed};
ghost use Rattle.rules.specs.Basics.{is_empty};
ghost use Rattle.config_rules.specs.Lines.{is_comment, is_header};
ghost use Rattle.config_lines.specs.Kinds.{Named, KindOf};

use crate::eq_at;

// A header has its name; a pair its key and its value as they stand, to be trimmed where they are asked for.
// kept: the new form is no plainer: neither is the absence of the other, and a line of no kind is `None`
#[derive(Clone, Copy, PartialEq, Eq, Debug)]
pub enum LineKind<'a> {
    Header(&'a [u8]),
    Pair(&'a [u8], &'a [u8]),
}

// Whether a line is blank or a comment.
fn is_skipped(line: &[u8]) -> bool
    ensures { result ≡ (is_empty line.now || is_comment line.now) }
{
    matches!(line, [] | [b';' | b'#', ..])
}

// What stands between the brackets of a header.
fn name_in(line: &[u8]) -> Option<&[u8]>
    ensures { MatchOption result (is_header line.now ≡ false) (λ name. Named line.now name.now) }
{
    match line {
        [b'[', name @ .., b']'] => Some(name),
        _ => None,
    }
}

// The kind of a trimmed line, if it has one.
pub fn kind_of(line: &[u8]) -> Option<LineKind<'_>>
    requires { WellFormed line.now }
    ensures { KindOf line.now result }
{
    if is_skipped(line) {
        return None;
    }
    if let Some(name) = name_in(line) {
        return Some(LineKind::Header(name));
    }
    let i = eq_at(line)?;
    Some(LineKind::Pair(&line[..i], &line[i + 1..]))
}
