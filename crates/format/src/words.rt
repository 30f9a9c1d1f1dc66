// Words: what a line starts with. Fixed byte strings are compared.
ghost use Rattle.std.specs.Prelude.{◌≡◌, not, ◌&&◌, [], ◌∷◌, ◌<◌, length, get_or};
ghost use Rattle.utf8.specs.Unicode.{decode, WellFormed};
ghost use Rattle.rules.specs.Basics.{codes, at, one_of, first_is};
ghost use Rattle.rules.specs.Operators.{operators};
ghost use Rattle.rules.specs.Words.{starts_with_word, starts_with_binary_op};
ghost use Rattle.basics.specs.Closers.{Closers};
ghost use Rattle.format.specs.Words.{white_or, follows, declaration_of, same_of, Continues};

use basics::{is_blank, starts_with};
use operators::first::starts_operator;
use operators::{is_one, is_two};

// A space, a tab or nothing follows the word.
pub fn starts_with_word(line: &[u8], word: &[u8]) -> bool
    ensures { result ≡ starts_with_word line.now word.now }
{
    let n = word.len();
    starts_with(line, word) && (line.len() <= n || is_blank(line[n]))
}

// Whether white space or the byte c comes first.
pub fn starts_white_or(rest: &[u8], c: u8) -> bool
    requires { WellFormed rest.now × (c < 0x80) }
    ensures { result ≡ first_is (white_or c) (decode rest.now) }
{
    !rest.is_empty() && (rest[0] == c || utf8::first_is_white(rest))
}

// The line starts with an operator of one byte, before white space or `(`.
fn starts_with_operator(line: &[u8]) -> bool
    requires { WellFormed line.now × (1 < length line.now) }
    ensures { result ≡ (one_of operators (get_or line.now 0 0 ∷ []) && follows line.now 1) }
{
    is_one(line[0]) && starts_white_or(&line[1..], b'(')
}

// The same of two bytes.
fn starts_with_operator_pair(line: &[u8]) -> bool
    requires { WellFormed line.now × (1 < length line.now) }
    ensures { result ≡ (one_of operators (get_or line.now 0 0 ∷ get_or line.now 1 0 ∷ []) && follows
        line.now 2) }
{
    is_two(line[0], line[1]) && starts_white_or(&line[2..], b'(')
}

// One of the 21 binary operators before white space or `(`. Most lines are told by their first byte.
pub fn starts_with_binary_op(line: &[u8]) -> bool
    requires { WellFormed line.now }
    ensures { result ≡ starts_with_binary_op (decode line.now) }
{
    1 < line.len()
        && starts_operator(line[0])
        && (starts_with_operator(line) || starts_with_operator_pair(line))
}

// `.` but not `...`.
fn starts_with_dot(line: &[u8]) -> bool
    ensures { result ≡ (at line.now "." && not (at line.now "...")) }
{
    starts_with(line, b".") && !starts_with(line, b"...")
}

// `else` after a line that does not end in `}`.
fn continues_with_else(line: &[u8], after_brace: bool) -> bool
    ensures { result ≡ (starts_with_word line.now (codes "else") && not after_brace) }
{
    !after_brace && starts_with_word(line, b"else")
}

// Whether the line continues the one before, which ends in `}` if after_brace says so. The line has this many leading
// closers.
pub fn continues(line: &[u8], closers: usize, after_brace: bool) -> bool
    requires { WellFormed line.now × Closers line.now closers }
    ensures { Continues line.now after_brace result }
{
    closers == 0
        && (starts_with_word(line, b"then")
            || continues_with_else(line, after_brace)
            || starts_with_binary_op(line)
            || starts_with_dot(line))
}

// What a line that starts with `in `, `out ` or `var ` declares.
#[derive(Clone, Copy, PartialEq, Eq)]
pub enum Declaration {
    In,
    Out,
    Var,
}

pub fn declaration_of(line: &[u8]) -> Option<Declaration>
    ensures { result ≡ declaration_of line.now }
{
    if starts_with(line, b"in ") {
        Some(Declaration::In)
    } else if starts_with(line, b"out ") {
        Some(Declaration::Out)
    } else if starts_with(line, b"var ") {
        Some(Declaration::Var)
    } else {
        None
    }
}

// Whether two lines declare the same.
pub fn same_declaration(a: Option<Declaration>, b: Option<Declaration>) -> bool
    ensures { result ≡ same_of a b }
{
    a.is_some() && a == b
}
