// Else: a plain `else`, and the facts of a line that it may join.
ghost use Rattle.std.specs.Prelude.{◌≡◌};
ghost use Rattle.utf8.specs.Unicode.{decode, trim_end, WellFormed};
ghost use Rattle.rules.specs.Basics.{is, last_is};
ghost use Rattle.rules.specs.Else.{starts_if, is_plain_else, joinable};
ghost use Rattle.format.specs.Else.{plain_rest, Facts};

use crate::words::starts_white_or;
use basics::{starts_with, starts_with_keyword};

// White space and the word `if` follow an `else`.
fn starts_if(rest: &[u8]) -> bool
    requires { WellFormed rest.now }
    ensures { result ≡ starts_if (decode rest.now) }
{
    utf8::first_is_white(rest) && starts_with_keyword(&rest[utf8::trim_start(rest)..], b"if")
}

// What follows makes an `else` a plain one.
fn is_plain_rest(rest: &[u8]) -> bool
    requires { WellFormed rest.now }
    ensures { result ≡ plain_rest (decode rest.now) }
{
    rest.is_empty() || (starts_white_or(rest, b'{') && !starts_if(rest))
}

// `else`, but not `else if`.
pub fn is_plain_else(line: &[u8]) -> bool
    requires { WellFormed line.now }
    ensures { result ≡ is_plain_else (decode line.now) }
{
    starts_with(line, b"else") && is_plain_rest(&line[4..])
}

// Whether the last byte is `}`.
pub fn ends_in_brace(line: &[u8]) -> bool
    ensures { result ≡ last_is (is "}") line.now }
{
    matches!(line, [.., b'}'])
}

// Whether an `else` can be joined to a line that is trimmed at its end. Most lines do not end in `}`.
// Part of the line step.
#[inline(always)]
pub fn trimmed_takes_else(line: &[u8]) -> bool
    requires well_formed { WellFormed line.now }
    requires line_value { trim_end (decode line.now) ≡ decode line.now }
    ensures { result ≡ joinable (decode line.now) }
{
    ends_in_brace(line) && !starts_with(&line[utf8::trim_start(line)..], b"else")
}

// The facts of a line that an `else` may join: its length trimmed at the end, whether it then ends in `}`, and whether,
// trimmed at the start, it starts with `else`.
#[derive(Clone, Copy)]
pub struct LineFacts {
    pub trimmed: usize,
    pub brace: bool,
    pub else_first: bool,
}

pub fn line_facts(line: &[u8]) -> LineFacts
    requires { WellFormed line.now }
    ensures { Facts line.now result }
{
    let trimmed = utf8::trim_end(line);
    LineFacts {
        trimmed,
        brace: ends_in_brace(&line[..trimmed]),
        else_first: starts_with(&line[utf8::trim_start(line)..], b"else"),
    }
}
