// The tokens of a name, from left to right.
ghost use Rattle.std.specs.Prelude.{◌≡◌, ℕ, ◌+◌, ◌≤◌, ◌<◌, eqb, ltb, length, drop};
ghost use Rattle.std.specs.Option.{MatchOption};
ghost use Rattle.rules.specs.Basics.{first_is, at};
ghost use Rattle.config_rules.specs.Numbers.{digit_count, number_len};
ghost use Rattle.glob_name.specs.Read.{Counted, NumberAt, Told, rest_more, range_more, longer, Ends, plain_read, star_read};
ghost use Rattle.glob_name.specs.Read.{slash_read, escape_read, set_read, brace_read, TokenRead, RawKinds};

use glob_pass::code_points::{
    BACKSLASH, CLOSE_BRACE, CLOSE_BRACKET, COMMA, DOT, MINUS, NINE, OPEN_BRACE, OPEN_BRACKET,
    QUESTION, SLASH, STAR, ZERO,
};
use glob_pass::kinds::Kind;
use glob_pass::{CHARS, PLACES};

// A token's kind, how many more characters it has, which may be none, and whether a `/**/` goes on behind it.
#[derive(Clone, Copy)]
pub struct Read {
    pub kind: Kind,
    pub more: usize,
    pub deep: bool,
}

// Whether the character at i is c.
fn char_is(chars: &[u32], i: usize, c: u32) -> bool
    ensures { result ≡ first_is (λ (d : ℕ). eqb d c) (drop i chars.now) }
{
    i < chars.len() && chars[i] == c
}

// How many digits stand at `from`.
fn digit_count(chars: &[u32], from: usize) -> usize
    requires { from ≤ length chars.now }
    ensures { Counted chars.now from (digit_count (drop from chars.now)) result }
{
    blocks::first_from(
        from,
        chars.len(),
        &|i| (chars[i] < ZERO) | (NINE < chars[i]),
    ) - from
}

// How long the number is that stands at `from`, if one does.
pub fn number_len(chars: &[u32], from: usize) -> Option<usize>
    requires { from ≤ length chars.now }
    ensures { MatchOption result (number_len (drop from chars.now) ≡ 0) (NumberAt chars.now from) }
{
    let sign = char_is(chars, from, MINUS) as usize;
    let digits = digit_count(chars, from + sign);
    (digits != 0).then_some(sign + digits)
}

// The same behind the first number of a range, m characters long, and `..`.
// kept: the new form is no plainer: with a struct that says how many characters there are, here and below, `chars.now`
// becomes `name.entry.chars.now`, and the functions that ask nothing of them, half of this file, are given `name.chars`
fn range_rest(chars: &[u32], from: usize, m: usize) -> Option<usize>
    requires { (from + m + 2 ≤ length chars.now) × (length chars.now < PLACES) }
    ensures { Told (rest_more chars.now from m) result }
{
    let n = number_len(chars, from + m + 2)?;
    char_is(chars, from + m + 2 + n, CLOSE_BRACE).then_some(m + n + 3)
}

// How many more characters the range has whose brace stands before `from`, if it is one.
fn range_more(chars: &[u32], from: usize) -> Option<usize>
    requires { (from ≤ length chars.now) × (length chars.now < PLACES) }
    ensures { Told (range_more chars.now from) result }
{
    let m = number_len(chars, from)?;
    if char_is(chars, from + m, DOT) & char_is(chars, from + m + 1, DOT) {
        range_rest(chars, from, m)
    } else {
        None
    }
}

// The next longer distance.
fn up(n: Option<u16>) -> Option<u16>
    requires { MatchOption n (Unit {0}) (λ m. m < 2000) }
    ensures { result ≡ longer n }
{
    Some(n? + 1)
}

// For each place, how far the `]` is that ends a set there, if one does.
// kept: `u16`: a place takes four bytes for sixteen, and all are cleared for each name
fn set_ends(chars: &[u32], ends: &mut [Option<u16>; PLACES])
    requires { length chars.now < PLACES }
    ensures { Ends chars.now ends.new }
{
    let mut plain = None;
    let mut escaped = None;
    ends[chars.len()] = None;
    // kept: as in `mark_right`, from the right nothing would be known of what an iterator's loop wrote
    for i in (0..chars.len()).rev() {
        let before = plain;
        match chars[i] {
            CLOSE_BRACKET => {
                plain = Some(1);
                escaped = up(before);
            }
            BACKSLASH => {
                plain = up(escaped);
                escaped = up(before);
            }
            _ => {
                plain = up(before);
                escaped = plain;
            }
        }
        ends[i] = plain;
    }
}

// Whether `**/` stands at i.
fn stars_at(chars: &[u32], i: usize) -> bool
    requires { i < PLACES }
    ensures { result ≡ at (drop i chars.now) "**/" }
{
    char_is(chars, i, STAR) & char_is(chars, i + 1, STAR) & char_is(chars, i + 2, SLASH)
}

fn plain_read(kind: Kind, more: usize) -> Read
    ensures { result ≡ plain_read kind more }
{
    Read {
        kind,
        more,
        deep: false,
    }
}

// A star at i, or a slash.
#[tactic(auto, unfolding(rules::specs::Basics::choose, crate::specs::Read::star_read))]
fn star_read(chars: &[u32], i: usize, deep: bool) -> Read
    requires { i < PLACES }
    ensures { result ≡ star_read deep (drop (i + 1) chars.now) }
{
    if char_is(chars, i + 1, STAR) {
        return Read {
            kind: Kind::Stars,
            more: 1,
            deep,
        };
    }
    plain_read(Kind::Star, 0)
}

#[tactic(auto, unfolding(rules::specs::Basics::choose, crate::specs::Read::slash_read))]
fn slash_read(chars: &[u32], i: usize, deep: bool) -> Read
    requires { i < CHARS }
    ensures { result ≡ slash_read deep (drop (i + 1) chars.now) }
{
    if deep {
        return plain_read(Kind::Plain, 0);
    }
    if stars_at(chars, i + 1) {
        return Read {
            kind: Kind::Ahead,
            more: 0,
            deep: true,
        };
    }
    plain_read(Kind::Plain, 0)
}

// A backslash at i: it escapes the next character, if there is one.
#[tactic(auto, unfolding(rules::specs::Basics::choose, crate::specs::Read::escape_read))]
fn escape_read(chars: &[u32], i: usize) -> Read
    requires { i < PLACES }
    ensures { result ≡ escape_read (ltb (i + 1) (length chars.now)) }
{
    if i + 1 < chars.len() {
        plain_read(Kind::Escape, 1)
    } else {
        plain_read(Kind::Plain, 0)
    }
}

// An opening bracket, where `end` says how far the `]` is that ends the set, if one does.
fn set_read(end: Option<u16>) -> Read
    ensures { result ≡ set_read end }
{
    match end {
        Some(more) => plain_read(Kind::Set, usize::from(more)),
        None => plain_read(Kind::Plain, 0),
    }
}

// An opening brace at i.
#[tactic(auto, unfolding(rules::specs::Basics::choose, crate::specs::Read::brace_read))]
fn brace_read(chars: &[u32], i: usize) -> Read
    requires { (i < length chars.now) × (length chars.now < PLACES) }
    ensures { result ≡ brace_read (range_more chars.now (i + 1)) }
{
    match range_more(chars, i + 1) {
        Some(more) => plain_read(Kind::Range, more),
        None => plain_read(Kind::Opens, 0),
    }
}

// The token at i, which nothing escapes.
fn read_at(chars: &[u32], ends: &[Option<u16>; PLACES], i: usize, deep: bool) -> Read
    requires { (i < length chars.now) × (length chars.now < PLACES) × Ends chars.now ends.now }
    ensures { TokenRead chars.now i deep result }
{
    match chars[i] {
        BACKSLASH => escape_read(chars, i),
        OPEN_BRACKET => set_read(ends[i + 1]),
        OPEN_BRACE => brace_read(chars, i),
        STAR => star_read(chars, i, deep),
        SLASH => slash_read(chars, i, deep),
        QUESTION => plain_read(Kind::One, 0),
        COMMA => plain_read(Kind::Comma, 0),
        CLOSE_BRACE => plain_read(Kind::Closes, 0),
        _ => plain_read(Kind::Plain, 0),
    }
}

// The kinds of a name, before any brace is taken for itself.
pub fn raw_kinds(chars: &[u32], kinds: &mut [Kind])
    requires { (length kinds.old ≡ length chars.now) × (length chars.now < PLACES) }
    ensures { RawKinds chars.now kinds.new }
{
    let mut ends: [Option<u16>; PLACES] = [None; PLACES];
    set_ends(chars, &mut ends);
    let mut more: usize = 0;
    let mut deep = false;
    for (i, k) in kinds.iter_mut().enumerate() {
        if 0 < more {
            *k = Kind::Covered;
            more -= 1;
            continue;
        }
        let r = read_at(chars, &ends, i, deep);
        *k = r.kind;
        more = r.more;
        deep = r.deep;
    }
}
