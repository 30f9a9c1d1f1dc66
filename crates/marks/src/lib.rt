// A line read one byte at a time, as a row of marks: a mark's mode tells a `${..}` from its string.
#![tactic(auto)]

ghost use Rattle.std.specs.Prelude.{◌≡◌, ◌∷◌, [], ◌+◌, ◌<◌, ◌^◌};
ghost use Rattle.rules.specs.Basics.{starts_with};
ghost use Rattle.rules.specs.Scan.{in_code, in_quoted, in_interp, in_inner, in_block, in_prefab, mark_at, next, at_quote};
ghost use Rattle.rules.specs.Scan.{begin};
ghost use Rattle.basics.specs.Depth.{depth_of};

use basics::{quote_of, starts_with};
use rules::{Carry, Class, Mark, Mode};

// Whether s starts with c.
fn first_is(s: &[u8], c: u8) -> bool
    ensures { result ≡ starts_with s.now (c ∷ []) }
{
    matches!(s, [b, ..] if *b == c)
}

// Whether s starts with the character that ends a string.
fn closes(s: &[u8], double: bool) -> bool
    ensures { result ≡ at_quote s.now double }
{
    first_is(s, quote_of(double))
}

fn in_code(s: &[u8]) -> Mark
    ensures { result ≡ in_code s.now }
{
    if first_is(s, b'\\') {
        Mark::long(1, Class::Code, Mode::Code)
    } else if first_is(s, b'"') {
        Mark::one(Class::Str, Mode::Quoted(true))
    } else if first_is(s, b'\'') {
        Mark::one(Class::Str, Mode::Quoted(false))
    } else if starts_with(s, b"//") {
        Mark::one(Class::LineComment, Mode::Line)
    } else if starts_with(s, b"/*") {
        Mark::long(1, Class::BlockComment, Mode::Block(1))
    } else if starts_with(s, b"$```") {
        Mark::long(3, Class::Prefab, Mode::Prefab)
    } else {
        Mark::one(Class::Code, Mode::Code)
    }
}

fn in_quoted(s: &[u8], q: bool) -> Mark
    ensures { result ≡ in_quoted q s.now }
{
    if first_is(s, b'\\') {
        Mark::long(1, Class::Str, Mode::Quoted(q))
    } else if starts_with(s, b"${") {
        Mark::long(1, Class::Str, Mode::Interp(q, 1))
    } else if closes(s, q) {
        Mark::one(Class::Str, Mode::Code)
    } else {
        Mark::one(Class::Str, Mode::Quoted(q))
    }
}

fn in_interp(s: &[u8], q: bool, d: u32) -> Mark
    requires { d + 1 < 2 ^ 32 }
    ensures { result ≡ in_interp q d s.now }
{
    if first_is(s, b'\\') {
        Mark::long(1, Class::Str, Mode::Interp(q, d))
    } else if first_is(s, b'"') {
        Mark::one(Class::Str, Mode::Inner(q, d, true))
    } else if first_is(s, b'\'') {
        Mark::one(Class::Str, Mode::Inner(q, d, false))
    } else if first_is(s, b'{') {
        Mark::one(Class::Str, Mode::Interp(q, d + 1))
    } else if first_is(s, b'}') {
        if d <= 1 {
            Mark::one(Class::Str, Mode::Quoted(q))
        } else {
            Mark::one(Class::Str, Mode::Interp(q, d - 1))
        }
    } else {
        Mark::one(Class::Str, Mode::Interp(q, d))
    }
}

fn in_inner(s: &[u8], q: bool, d: u32, k: bool) -> Mark
    ensures { result ≡ in_inner q d k s.now }
{
    if first_is(s, b'\\') {
        Mark::long(1, Class::Str, Mode::Inner(q, d, k))
    } else if closes(s, k) {
        Mark::one(Class::Str, Mode::Interp(q, d))
    } else {
        Mark::one(Class::Str, Mode::Inner(q, d, k))
    }
}

fn in_block(s: &[u8], d: u32) -> Mark
    requires { d + 1 < 2 ^ 32 }
    ensures { result ≡ in_block d s.now }
{
    if starts_with(s, b"/*") {
        Mark::long(1, Class::BlockComment, Mode::Block(d + 1))
    } else if starts_with(s, b"*/") {
        if d <= 1 {
            Mark::long(1, Class::BlockComment, Mode::Code)
        } else {
            Mark::long(1, Class::BlockComment, Mode::Block(d - 1))
        }
    } else {
        Mark::one(Class::BlockComment, Mode::Block(d))
    }
}

fn in_prefab(s: &[u8]) -> Mark
    ensures { result ≡ in_prefab s.now }
{
    if starts_with(s, b"```") {
        Mark::long(2, Class::Prefab, Mode::Code)
    } else {
        Mark::one(Class::Prefab, Mode::Prefab)
    }
}

// The mark at the head of s in mode m.
fn mark_at(s: &[u8], m: Mode) -> Mark
    requires { depth_of m + 1 < 2 ^ 32 }
    ensures { result ≡ mark_at m s.now }
{
    match m {
        Mode::Code => in_code(s),
        Mode::Quoted(q) => in_quoted(s, q),
        Mode::Interp(q, d) => in_interp(s, q, d),
        Mode::Inner(q, d, k) => in_inner(s, q, d, k),
        Mode::Line => Mark::one(Class::LineComment, Mode::Line),
        Mode::Block(d) => in_block(s, d),
        Mode::Prefab => in_prefab(s),
    }
}

// One character on, at the head of s: the rest of the mark t, or the next mark.
pub fn next_mark(s: &[u8], t: Mark) -> Mark
    requires { depth_of t.mode + 1 < 2 ^ 32 }
    ensures { result ≡ next t s.now }
{
    if t.more == 0 {
        mark_at(s, t.mode)
    } else {
        Mark::long(t.more - 1, t.class, t.mode)
    }
}

// The mark before a line's first byte.
pub fn begin(y: Carry) -> Mark
    ensures { result ≡ begin y }
{
    Mark::one(Class::Code, Mode::from(y))
}
