// Unicode by bytes: UTF-8, White_Space and UTF-16 lengths. What a slice's characters are is the specification's
// `decode` (specs/Unicode.antt).
#![tactic(auto)]

ghost use Rattle.std.specs.Prelude.{◌≡◌, ◌+◌, ◌≤◌, ◌<◌, ℕ, Bool, IfSome, length, get_or, take, drop, slice_range};
ghost use Rattle.std.specs.Str.{IsUtf8};
ghost use Rattle.utf8.specs.Unicode.{tail, prefix_len, code_of, code_at, decode};
ghost use Rattle.utf8.specs.Unicode.{WellFormed, width, is_white, first_is_white};
ghost use Rattle.utf8.specs.Places.{AsciiRun, Step, Back, TellsChars, PastChars, WhiteAt, WhiteBefore};
ghost use Rattle.utf8.specs.Places.{TrimmedStart, SpacesPassed, TrimmedEnd, Column, units_of, lead_of, total};

use blocks::bytes::Passing;
use blocks::lanes;
use blocks::others::Other;

// A place in a slice: how many bytes stand before it.
#[derive(Clone, Copy, PartialEq, Eq, PartialOrd, Ord, Debug)]
pub struct ByteOffset(pub usize);

// A place in a text: how many characters stand before it.
#[derive(Clone, Copy, PartialEq, Eq, PartialOrd, Ord, Debug)]
pub struct CharColumn(pub usize);

// A length or a place in a text, in UTF-16 units.
#[derive(Clone, Copy, PartialEq, Eq, PartialOrd, Ord, Debug)]
pub struct Utf16Column(pub usize);

// The byte at i, or 0 past the end.
fn byte_at(s: &[u8], i: usize) -> u8
    ensures { result ≡ get_or s.now i 0 }
{
    s.get(i).copied().unwrap_or(0)
}

// A byte that no sequence starts with.
#[tactic(auto, unfolding(crate::specs::Unicode::tail))]
pub fn is_tail(b: u8) -> bool
    ensures { result ≡ tail b }
{
    matches!(b, 0x80..=0xBF)
}

// Past the blocks of 16 bytes that are ASCII; after the first, of 64 where so many are left.
pub fn past_blocks(s: &[u8], at: usize) -> usize
    requires { at ≤ length s.now }
    ensures { AsciiRun s.now at result }
{
    let is_high = |i: usize| 127 < s[i];
    let mut i = at;
    // kept: a range is no plainer, since a step takes 16 bytes or 64 and more
    while s.len() - i >= 16 && !blocks::any_among::<16, _>(i, &is_high) {
        i = blocks::past_blocks::<64, _>(i + 16, s.len(), &is_high);
    }
    i
}

// How many bytes tell whether text is dense: each block of 16 among them has a byte that is not ASCII.
const FRONT: usize = 256;

// The bytes of dense text that `simdutf8` tests at a time. One that is not ASCII among 64 costs it what 64 do.
const DENSE_PART: usize = 1024;

// Those of other text, which the standard library tests. Each character of several bytes costs it the same.
const SPARSE_PART: usize = 4096;

// Whether text is dense. One that is shorter than `FRONT` is not.
fn is_dense(s: &[u8]) -> bool {
    s.get(..FRONT).is_some_and(|front| front.chunks_exact(16).all(|block| !block.is_ascii()))
}

// One place back, where a byte stands that no sequence starts with.
fn back_in_char(s: &[u8], at: usize) -> usize
    requires { (0 < at) × (at < length s.now) }
    ensures { (result ≤ at) × (at ≤ result + 1) }
{
    at - usize::from(is_tail(s[at]))
}

// Where the part that begins at `at` ends: `most` bytes on, but before a character that would be cut.
fn part_end(s: &[u8], at: usize, most: usize) -> usize
    requires { (at < length s.now) × (4 ≤ most) }
    ensures { (at < result) × (result ≤ length s.now) }
{
    if s.len() - at <= most {
        s.len()
    } else {
        back_in_char(s, back_in_char(s, back_in_char(s, at + most)))
    }
}

// Where the part that begins at `at` ends, if it is well-formed.
fn well_formed_part(s: &[u8], at: usize) -> Option<usize>
    requires { at < length s.now }
    ensures { IfSome result (λ end. (at < end) × (end ≤ length s.now) × IsUtf8 (slice_range s.now at end)) }
{
    let dense = is_dense(&s[at..]);
    let end = part_end(s, at, if dense { DENSE_PART } else { SPARSE_PART });
    let part = &s[at..end];
    let fits = if dense {
        simdutf8::is_utf8_baseline(part)
    } else {
        str::from_utf8(part).is_ok()
    };
    fits.then_some(end)
}

// How many bytes lie in well-formed parts from the start on. A rest that is shorter than `FRONT` is no part.
fn well_formed_parts(s: &[u8]) -> usize
    ensures { (result ≤ length s.now) × IsUtf8 (take result s.now) }
{
    let mut at = 0;
    // kept: a range is no plainer, since a part ends where a character does
    while s.len() - at >= FRONT {
        let Some(end) = well_formed_part(s, at) else {
            return at;
        };
        at = end;
    }
    at
}

// The length of the longest well-formed prefix. Behind a fault no more is read than its part.
pub fn well_formed_prefix(s: &[u8]) -> usize
    ensures { result ≡ prefix_len s.now }
{
    let at = well_formed_parts(s);
    match str::from_utf8(&s[at..]) {
        Ok(text) => at + text.len(),
        Err(e) => at + e.valid_up_to(),
    }
}

// The UTF-16 units of the character that a byte starts, and 0 for a byte that starts none.
#[tactic(auto, unfolding(crate::specs::Places::units_of))]
pub fn units(b: u8) -> usize
    ensures { (result ≡ units_of b) × (result ≤ 2) }
{
    match b {
        0..=0x7F => 1,
        0x80..=0xBF => 0,
        0xC0..=0xEF => 1,
        _ => 2,
    }
}

// 1 for a byte that starts a character, else 0.
fn lead(b: u8) -> usize
    ensures { (result ≡ lead_of b) × (result ≤ 2) }
{
    usize::from(!is_tail(b))
}

// The sum of what the bytes count for, each at most 2.
fn total<F: Fn(u8) -> usize>(s: &[u8], count: &F) -> usize
    ghost counts: { ℕ → ℕ }
    requires can { (b : ℕ) → b < 256 → F.pre count.now b }
    requires counted { (b r : ℕ) → F.post count.now b r → (r ≡ counts b) × (r ≤ 2) }
    ensures { result ≡ total counts s.now }
{
    let mut n = 0;
    for b in s {
        n += count(*b);
    }
    n
}

// How many UTF-16 units the characters of a well-formed slice take: as many as bytes where they are ASCII.
pub fn width(s: &[u8]) -> Utf16Column
    requires { WellFormed s.now }
    ensures { result.0 ≡ width (decode s.now) }
{
    let ascii = past_blocks(s, 0);
    Utf16Column(ascii + total(&s[ascii..], &units))
}

// How many characters a well-formed slice has.
pub fn char_count(s: &[u8]) -> CharColumn
    requires { WellFormed s.now }
    ensures { result.0 ≡ length (decode s.now) }
{
    CharColumn(total(s, &lead))
}

// The code point of the sequence that the four bytes start with.
#[tactic(auto, unfolding(crate::specs::Unicode::code_of))]
fn code_of(b0: u8, b1: u8, b2: u8, b3: u8) -> u32
    ensures { result ≡ code_of b0 b1 b2 b3 }
{
    let c0 = u32::from(b0);
    let c1 = u32::from(b1);
    let c2 = u32::from(b2);
    let c3 = u32::from(b3);
    match b0 {
        0..=0x7F => c0,
        0x80..=0xDF => c0 % 32 * 64 + c1 % 64,
        0xE0..=0xEF => c0 % 16 * 4096 + c1 % 64 * 64 + c2 % 64,
        _ => c0 % 8 * 262144 + c1 % 64 * 4096 + c2 % 64 * 64 + c3 % 64,
    }
}

// The same at a place of a slice.
pub fn code_at(s: &[u8], i: usize) -> u32
    requires { i < length s.now }
    ensures { result ≡ code_at (drop i s.now) }
{
    let b0 = s[i];
    let b1 = byte_at(s, i + 1);
    let b2 = byte_at(s, i + 2);
    let b3 = byte_at(s, i + 3);
    code_of(b0, b1, b2, b3)
}

// How many bytes the character at i takes.
pub fn size_at(s: &[u8], i: usize) -> usize
    requires { (i < length s.now) × WellFormed (drop i s.now) }
    ensures { Step s.now i result }
{
    match s[i] {
        0..=0x7F => 1,
        0x80..=0xDF => 2,
        0xE0..=0xEF => 3,
        _ => 4,
    }
}

// How many bytes the character before e takes.
pub fn size_before(s: &[u8], e: usize) -> usize
    requires { (0 < e) × (e ≤ length s.now) × WellFormed (take e s.now) }
    ensures { Back s.now e result }
{
    if s[e - 1] < 0x80 {
        1
    } else if 0xC0 <= s[e - 2] {
        2
    } else if 0xC0 <= s[e - 3] {
        3
    } else {
        4
    }
}

// Where the character of a column starts: the place after so many characters, or the length where there are fewer.
pub fn offset_of(s: &[u8], column: CharColumn) -> ByteOffset
    requires { WellFormed s.now }
    ensures { Column s.now column.0 result.0 }
{
    let mut i = 0;
    // kept: `char_indices().nth(..)` is of a `str`, as in `past_chars`
    for _ in 0..column.0 {
        if s.len() <= i {
            return ByteOffset(i);
        }
        i += size_at(s, i);
    }
    ByteOffset(i)
}

// A White_Space character.
#[tactic(auto, unfolding(crate::specs::Unicode::is_white))]
pub fn is_white(c: u32) -> bool
    ensures { result ≡ is_white c }
{
    if 0x1680 < c {
        matches!(
            c,
            0x2000..=0x200A | 0x2028 | 0x2029 | 0x202F | 0x205F | 0x3000
        )
    } else {
        matches!(c, 0x09..=0x0D | 0x20 | 0x85 | 0xA0 | 0x1680)
    }
}

// How many bytes the character at i takes, if it is white space.
// Apart from the callers' loops, which seldom meet one.
#[inline(never)]
fn wide_white_at(s: &[u8], i: usize) -> Option<usize>
    requires { (i < length s.now) × WellFormed (drop i s.now) }
    ensures { WhiteAt s.now i result }
{
    if is_white(code_at(s, i)) {
        Some(size_at(s, i))
    } else {
        None
    }
}

// The same. One of a byte is told here, so that a caller's loop takes this in.
pub fn white_at(s: &[u8], i: usize) -> Option<usize>
    requires { (i < length s.now) × WellFormed (drop i s.now) }
    ensures { WhiteAt s.now i result }
{
    let b = s[i];
    if 0x80 <= b {
        wide_white_at(s, i)
    } else {
        is_white(b as u32).then_some(1)
    }
}

// How many bytes the character before e takes, if it is white space. Apart, as `wide_white_at` is.
#[inline(never)]
fn wide_white_before(s: &[u8], e: usize) -> Option<usize>
    requires { (0 < e) × (e ≤ length s.now) × WellFormed (take e s.now) }
    ensures { WhiteBefore s.now e result }
{
    let n = size_before(s, e);
    is_white(code_at(s, e - n)).then_some(n)
}

// The same. One of a byte is told here, so that a caller's loop takes this in.
pub fn white_before(s: &[u8], e: usize) -> Option<usize>
    requires { (0 < e) × (e ≤ length s.now) × WellFormed (take e s.now) }
    ensures { WhiteBefore s.now e result }
{
    let b = s[e - 1];
    if 0x80 <= b {
        wide_white_before(s, e)
    } else {
        is_white(b as u32).then_some(1)
    }
}

// Whether a well-formed slice starts with white space.
pub fn first_is_white(s: &[u8]) -> bool
    requires { WellFormed s.now }
    ensures { result ≡ first_is_white (decode s.now) }
{
    !s.is_empty() && white_at(s, 0).is_some()
}

// Past the characters from `from` on that the test takes; it tells how many bytes each of them has.
pub fn past_chars<F: Fn(usize) -> Option<usize>>(s: &[u8], from: usize, test: &F) -> usize
    ghost takes: { ℕ → Bool }
    requires starts { (from ≤ length s.now) × WellFormed (drop from s.now) }
    requires tells { TellsChars (F.pre test.now) (F.post test.now) takes s.now }
    ensures { PastChars takes s.now from result }
{
    let mut i = from;
    // kept: a range is no plainer, since a step takes the bytes of a character; `char_indices` is of a `str`, which
    // these lent bytes are not: `from_utf8` would read all of them once more
    while i < s.len() {
        let Some(n) = test(i) else {
            return i;
        };
        i += n;
    }
    i
}

// Past the spaces at the start, which most white space is. Of a short text it is not said.
fn past_spaces(s: &[u8]) -> usize
    requires { WellFormed s.now }
    ensures { SpacesPassed s.now result }
{
    if s.len() < 16 {
        0
    } else {
        let others = Passing {
            bytes: s,
            test: Other { b: b' ' },
        };
        lanes::first_in::<16, _>(&others, 0, s.len())
    }
}

// Where the white space at the start of a well-formed slice ends.
// Part of the line step, as `trim_end` is.
#[inline(always)]
pub fn trim_start(s: &[u8]) -> usize
    requires { WellFormed s.now }
    ensures { TrimmedStart s.now result }
{
    past_chars(s, past_spaces(s), &|i| white_at(s, i))
}

// Where the white space at the end of a well-formed slice starts.
#[inline(always)]
pub fn trim_end(s: &[u8]) -> usize
    requires { WellFormed s.now }
    ensures { TrimmedEnd s.now result }
{
    let mut e = s.len();
    // kept: the same from the end, for which `char_indices().rev()` is of a `str`
    while 0 < e {
        let Some(n) = white_before(s, e) else {
            return e;
        };
        e -= n;
    }
    e
}
