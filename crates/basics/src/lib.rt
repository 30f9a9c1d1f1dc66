// Tests of a byte, and of what a slice starts with; the quotes.
#![tactic(auto)]

ghost use Rattle.std.specs.Prelude.{◌≡◌, true, not};
ghost use Rattle.rules.specs.Basics.{is_blank, is_opener, is_closer, is_ident, starts_with, starts_then};
ghost use Rattle.rules.specs.Scan.{quote};

pub fn is_blank(c: u8) -> bool
    ensures { result ≡ is_blank c }
{
    matches!(c, b' ' | b'\t')
}

pub fn is_opener(c: u8) -> bool
    ensures { result ≡ is_opener c }
{
    matches!(c, b'{' | b'(' | b'[')
}

pub fn is_closer(c: u8) -> bool
    ensures { result ≡ is_closer c }
{
    matches!(c, b'}' | b')' | b']')
}

// Each ASCII letter, digit and underscore stands at its own place, and a comma at every other place.
static IDENT: [u8; 256] = *b"\
    ,,,,,,,,,,,,,,,,,,,,,,,,,,,,,,,,\
    ,,,,,,,,,,,,,,,,0123456789,,,,,,\
    ,ABCDEFGHIJKLMNOPQRSTUVWXYZ,,,,_\
    ,abcdefghijklmnopqrstuvwxyz,,,,,\
    ,,,,,,,,,,,,,,,,,,,,,,,,,,,,,,,,\
    ,,,,,,,,,,,,,,,,,,,,,,,,,,,,,,,,\
    ,,,,,,,,,,,,,,,,,,,,,,,,,,,,,,,,\
    ,,,,,,,,,,,,,,,,,,,,,,,,,,,,,,,,";

// An ASCII letter, digit or underscore.
pub fn is_ident(c: u8) -> bool
    ensures { result ≡ is_ident c }
{
    IDENT[c as usize] != b','
}

// The character that ends a string.
pub fn quote_of(double: bool) -> u8
    ensures { result ≡ quote double }
{
    if double { b'"' } else { b'\'' }
}

// Whether line starts with word. Most lines are told by their first byte.
pub fn starts_with(line: &[u8], word: &[u8]) -> bool
    ensures { result ≡ starts_with line.now word.now }
{
    match (line, word) {
        ([c, ..], [w, ..]) if c != w => false,
        _ => line.starts_with(word),
    }
}

// Whether line starts with word, and no ASCII letter, digit or underscore follows.
pub fn starts_with_keyword(line: &[u8], word: &[u8]) -> bool
    ensures { result ≡ starts_then word.now (λ c. not (is_ident c)) true line.now }
{
    let n = word.len();
    starts_with(line, word) && (line.len() <= n || !is_ident(line[n]))
}
