// What each byte of a line is part of: code, a string, a comment, or a prefab. Code, a block comment and a prefab have
// a function each, which reads on until another of them begins or the line ends. Strings and `//` comments end with
// their line, so they are read within code.
#![tactic(auto)]

mod marked;
mod starts;

ghost use Rattle.std.specs.Prelude.{◌≡◌, ◌∷◌, [], ◌+◌, ◌<◌, ◌≤◌, ◌^◌, ◌&&◌, not, ltb, length, drop, get_or};
ghost use Rattle.rules.specs.Basics.{starts_with};
ghost use Rattle.rules.specs.Scan.{quote};
ghost use Rattle.basics.specs.Depth.{carry_depth};
ghost use Rattle.scan.specs.Classified.{Classified};
ghost use Rattle.scan.specs.CodeEnd.{code_length, NoComment, only_code_or_str};
ghost use Rattle.scan.specs.Stretch.{Room, Inside, At, Deep, PairRead, PlainString, PlainComment, InnerRead, InterpRead, DollarRead};
ghost use Rattle.scan.specs.Stretch.{Scanned, Stretch, fresh, starts_in_code};
ghost use Rattle.scan.specs.Within.{ClassRoom, ClassifiedAt};

use basics::quote_of;
use blocks::bytes::ByteTest;
use marked::plain;
use rules::class_byte::{BLOCK_COMMENT, CODE, LINE_COMMENT, PREFAB, STR};
use rules::{Carry, Mode};
use starts::{Starts, Stops, Turns, starts_in_code};

// A place in the line, and what is open there.
#[derive(Clone, Copy)]
struct Stop {
    at: usize,
    carry: Carry,
}

// Whether c stands at the place after `at`.
fn next_is(line: &[u8], at: usize, c: u8) -> bool
    requires { at < length line.now }
    ensures { result ≡ starts_with (drop (at + 1) line.now) (c ∷ []) }
{
    at + 1 < line.len() && line[at + 1] == c
}

// kept: `starts_with` in place of `two_at` and `fence_at` takes 0.4 % more instructions of `if and else` (tried)

// Whether a and b stand at `at`.
fn two_at(line: &[u8], at: usize, a: u8, b: u8) -> bool
    requires { at < length line.now }
    ensures { result ≡ starts_with (drop at line.now) (a ∷ b ∷ []) }
{
    line[at] == a && next_is(line, at, b)
}

// Whether ``` stands at `at`.
fn fence_at(line: &[u8], at: usize) -> bool
    ensures { result ≡ starts_with (drop at line.now) (96 ∷ 96 ∷ 96 ∷ []) }
{
    if line.len() <= at || line[at] != b'`' {
        return false;
    }
    at + 1 < line.len() && two_at(line, at + 1, b'`', b'`')
}

// kept: a line, a place and the class bytes are passed as they are: a struct would have to hold the lent class bytes,
// and each function would take it apart again.

// The class byte k of a mark of two bytes at `at`, of which the line may end after the first.
fn pair(line: &[u8], at: usize, k: u8, class: &mut [u8]) -> usize
    requires { Inside line.now at class.old }
    ensures { PairRead line.now at k class.old result class.new }
{
    class[at] = k;
    if at + 1 < line.len() {
        class[at + 1] = k;
        return at + 2;
    }
    at + 1
}

// In a string inside `${`: past the quote that ends it.
fn inner(line: &[u8], at: usize, k: bool, class: &mut [u8]) -> usize
    requires { Room line.now at class.old }
    ensures { InnerRead line.now at k class.old result class.new }
{
    let end = quote_of(k);
    let mut i = at;
    // kept: a range is no plainer, since a mark takes one byte or more
    while i < line.len() {
        let b = line[i];
        if b == b'\\' {
            i = pair(line, i, STR, class);
            continue;
        }
        class[i] = STR;
        i += 1;
        if b == end {
            return i;
        }
    }
    i
}

// Inside `${`: past the brace that ends it.
fn interp(line: &[u8], at: usize, class: &mut [u8]) -> usize
    requires { Room line.now at class.old }
    ensures { InterpRead line.now at class.old result class.new }
{
    let mut i = at;
    let mut d: usize = 1;
    // kept: a range is no plainer, since a mark takes one byte or more
    while i < line.len() {
        let b = line[i];
        if b == b'\\' {
            i = pair(line, i, STR, class);
            continue;
        }
        class[i] = STR;
        i += 1;
        // kept: a `match` takes 3.5 % more instructions of `strings with ${` (tried)
        if b == b'"' {
            i = inner(line, i, true, class);
            continue;
        }
        if b == b'\'' {
            i = inner(line, i, false, class);
            continue;
        }
        if b == b'{' {
            d += 1;
            continue;
        }
        if b == b'}' {
            if d <= 1 {
                return i;
            }
            d -= 1;
            continue;
        }
    }
    i
}

// At a `$` in a string: past `${..}`, or past the `$`.
fn dollar(line: &[u8], at: usize, class: &mut [u8]) -> usize
    requires { At 36 line.now at class.old }
    ensures { DollarRead line.now at class.old result class.new }
{
    if next_is(line, at, b'{') {
        let i = pair(line, at, STR, class);
        return interp(line, i, class);
    }
    class[at] = STR;
    at + 1
}

// Whether a byte stands at `at` that does not pass the test.
fn is_plain<T: ByteTest>(line: &[u8], at: usize, test: &T) -> bool
    ensures { result ≡ (ltb at (length line.now) && not (T.passes test.now (get_or line.now at 0))) }
{
    at < line.len() && !test.test(line[at])
}

// Bytes of a string that start and end nothing.
fn plain_string(line: &[u8], at: usize, class: &mut [u8]) -> usize
    requires { Room line.now at class.old }
    ensures { PlainString line.now at class.old result class.new }
{
    plain(line, at, Stops, STR, class)
}

// In a string: past the quote that ends it.
fn quoted(line: &[u8], at: usize, q: bool, class: &mut [u8]) -> usize
    requires { Room line.now at class.old }
    ensures { Scanned line.now (fresh (Mode.Quoted q)) at class.old (fresh Mode.Code) result
        class.new }
{
    let end = quote_of(q);
    let other = quote_of(!q);
    let mut i = at;
    // kept: a range is no plainer, since a mark takes one byte or more
    while i < line.len() {
        let b = line[i];
        if b == b'\\' {
            i = pair(line, i, STR, class);
            continue;
        }
        if b == b'$' {
            i = dollar(line, i, class);
            continue;
        }
        if b == other {
            class[i] = STR;
            i += 1;
            continue;
        }
        class[i] = STR;
        i += 1;
        if b == end {
            return i;
        }
        // a mark is often near: a search is begun at the second byte that is none, and never at a mark
        if is_plain(line, i, &Stops) {
            i = plain_string(line, i, class);
        }
    }
    i
}

// At a `/` in code.
fn slash(line: &[u8], at: usize, class: &mut [u8]) -> Stop
    requires { At 47 line.now at class.old }
    ensures { Stretch line.now Carry.Code at class.old result class.new }
{
    if next_is(line, at, b'/') {
        let n = line.len();
        buffer::fill(&mut class[at..n], LINE_COMMENT);
        return Stop {
            at: n,
            carry: Carry::Code,
        };
    }
    if next_is(line, at, b'*') {
        return Stop {
            at: pair(line, at, BLOCK_COMMENT, class),
            carry: Carry::Block(1),
        };
    }
    class[at] = CODE;
    Stop {
        at: at + 1,
        carry: Carry::Code,
    }
}

// At a `$` in code.
fn fence(line: &[u8], at: usize, class: &mut [u8]) -> Stop
    requires { At 36 line.now at class.old }
    ensures { Stretch line.now Carry.Code at class.old result class.new }
{
    if fence_at(line, at + 1) {
        let e = at + 4;
        buffer::fill(&mut class[at..e], PREFAB);
        return Stop {
            at: e,
            carry: Carry::Prefab,
        };
    }
    class[at] = CODE;
    Stop {
        at: at + 1,
        carry: Carry::Code,
    }
}

// At a quote in code: past the string.
fn string(line: &[u8], at: usize, q: bool, class: &mut [u8]) -> Stop
    requires { At (quote q) line.now at class.old }
    ensures { Stretch line.now Carry.Code at class.old result class.new }
{
    class[at] = STR;
    Stop {
        at: quoted(line, at + 1, q, class),
        carry: Carry::Code,
    }
}

// In code, at a byte that can start something.
fn start(line: &[u8], at: usize, class: &mut [u8]) -> Stop
    requires { Inside line.now at class.old }
    ensures { Stretch line.now Carry.Code at class.old result class.new }
{
    match line[at] {
        b'"' => string(line, at, true, class),
        b'\'' => string(line, at, false, class),
        b'/' => slash(line, at, class),
        b'$' => fence(line, at, class),
        b'\\' => Stop {
            at: pair(line, at, CODE, class),
            carry: Carry::Code,
        },
        _ => {
            class[at] = CODE;
            Stop {
                at: at + 1,
                carry: Carry::Code,
            }
        }
    }
}

// Bytes of code that start nothing.
fn plain_code(line: &[u8], at: usize, class: &mut [u8]) -> usize
    requires { Room line.now at class.old }
    ensures { Scanned line.now (fresh Mode.Code) at class.old (fresh Mode.Code) result
        class.new }
{
    plain(line, at, Starts, CODE, class)
}

// Escaped characters of code and single bytes between them that start nothing.
fn ones(line: &[u8], at: usize, class: &mut [u8]) -> usize
    requires { Room line.now at class.old }
    ensures { Scanned line.now (fresh Mode.Code) at class.old (fresh Mode.Code) result
        class.new }
{
    let mut i = at;
    // kept: a range is no plainer, since a mark takes one byte or two
    while i < line.len() {
        let b = line[i];
        if b == b'\\' {
            i = pair(line, i, CODE, class);
            continue;
        }
        if starts_in_code(b) {
            return i;
        }
        class[i] = CODE;
        if !next_is(line, i, b'\\') {
            return i + 1;
        }
        i += 1;
    }
    i
}

// Past escaped characters of code, which are read one at a time with the single bytes between them.
fn past_escapes(line: &[u8], at: usize, class: &mut [u8]) -> usize
    requires { Room line.now at class.old }
    ensures { Scanned line.now (fresh Mode.Code) at class.old (fresh Mode.Code) result
        class.new }
{
    if at < line.len() && line[at] == b'\\' {
        ones(line, at, class)
    } else {
        at
    }
}

// In code: past what the first byte starts that can start something.
fn code(line: &[u8], at: usize, class: &mut [u8]) -> Stop
    requires { Inside line.now at class.old }
    ensures { Stretch line.now Carry.Code at class.old result class.new }
{
    let e = plain_code(line, at, class);
    let i = past_escapes(line, e, class);
    if i < line.len() {
        return start(line, i, class);
    }
    Stop {
        at: i,
        carry: Carry::Code,
    }
}

// Bytes of block comments that open and end none.
fn plain_comment(line: &[u8], at: usize, class: &mut [u8]) -> usize
    requires { Room line.now at class.old }
    ensures { PlainComment line.now at class.old result class.new }
{
    plain(line, at, Turns, BLOCK_COMMENT, class)
}

// In block comments, `depth` of them: past the end of the last, or to the line's end.
fn block(line: &[u8], at: usize, depth: u32, class: &mut [u8]) -> Stop
    requires { Deep depth line.now at class.old }
    ensures { Stretch line.now (Carry.Block depth) at class.old result class.new }
{
    let mut i = at;
    let mut d = depth;
    // kept: a range is no plainer, since a mark takes one byte or more
    while i < line.len() {
        if two_at(line, i, b'/', b'*') {
            i = pair(line, i, BLOCK_COMMENT, class);
            d += 1;
            continue;
        }
        if two_at(line, i, b'*', b'/') {
            i = pair(line, i, BLOCK_COMMENT, class);
            if d <= 1 {
                return Stop {
                    at: i,
                    carry: Carry::Code,
                };
            }
            d -= 1;
            continue;
        }
        let b = line[i];
        class[i] = BLOCK_COMMENT;
        i += 1;
        // as in a string: a search is begun at the second byte that is no mark
        if !Turns.test(b) && is_plain(line, i, &Turns) {
            i = plain_comment(line, i, class);
        }
    }
    Stop {
        at: i,
        carry: Carry::Block(d),
    }
}

// In a prefab: past the ``` that ends it, or to the line's end.
fn prefab(line: &[u8], at: usize, class: &mut [u8]) -> Stop
    requires { Inside line.now at class.old }
    ensures { Stretch line.now Carry.Prefab at class.old result class.new }
{
    for i in at..line.len() {
        if fence_at(line, i) {
            let e = i + 3;
            buffer::fill(&mut class[i..e], PREFAB);
            return Stop {
                at: e,
                carry: Carry::Code,
            };
        }
        class[i] = PREFAB;
    }
    Stop {
        at: line.len(),
        carry: Carry::Prefab,
    }
}

fn stretch(line: &[u8], at: usize, carry: Carry, class: &mut [u8]) -> Stop
    requires { Deep (carry_depth carry) line.now at class.old }
    ensures { Stretch line.now carry at class.old result class.new }
{
    match carry {
        Carry::Code => code(line, at, class),
        Carry::Block(d) => block(line, at, d, class),
        Carry::Prefab => prefab(line, at, class),
    }
}

// The class byte of each byte of line, into the front of class, and what is still open after the line.
pub fn classify(line: &[u8], carry: Carry, class: &mut [u8]) -> Carry
    requires { (length line.now ≤ length class.old) × (carry_depth carry + length line.now + 1 < 2 ^ 32) }
    ensures { Classified carry line.now class.old class.new result }
{
    let mut i = 0;
    let mut y = carry;
    // kept: a range is no plainer, since a stretch takes one byte or more
    while i < line.len() {
        let stop = stretch(line, i, y, class);
        i = stop.at;
        y = stop.carry;
    }
    y
}

// The same of a line of code that stands in the buffer itself, n bytes from `at` on: its class bytes go to class_at and
// on.
pub fn classify_at(buf: &mut [u8], at: usize, n: usize, class_at: usize) -> Carry
    requires { ClassRoom buf.old at n class_at }
    ensures { ClassifiedAt buf.old at n class_at buf.new result }
{
    let (front, back) = buf.split_at_mut(class_at);
    classify(&front[at..at + n], Carry::Code, back)
}

// Whether no class byte is one of a `//` comment. Of a short line it is not said.
fn has_no_comment(class: &[u8]) -> bool
    ensures { NoComment class.now result }
{
    let n = class.len();
    16 <= n && blocks::none_before::<16, _>(n, &|i| class[i] == LINE_COMMENT)
}

// Where the line's `//` comment starts, or its length, by its class bytes.
pub fn code_end(class: &[u8]) -> usize
    ensures { result ≡ code_length class.now }
{
    let n = class.len();
    if has_no_comment(class) {
        return n;
    }
    blocks::first_from(0, n, &|i| class[i] == LINE_COMMENT)
}

// Whether all of a line is code or string, the two least of its class bytes.
pub fn all_code_or_str(class: &[u8]) -> bool
    ensures { result ≡ only_code_or_str class.now }
{
    class.iter().all(|k| *k <= STR)
}
