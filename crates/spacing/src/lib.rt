// Spacing: the respaced line, written into a slice that is lent, and the test whether a line is spaced already.
#![tactic(auto)]

ghost use Rattle.std.specs.Prelude.{◌≡◌, ◌&&◌, false, ◌++◌, ◌∷◌, [], ◌+◌, ◌-◌, ◌<◌, ◌≤◌, length, take};
ghost use Rattle.blocks.specs.Blocks.{FirstFrom};
ghost use Rattle.rules.specs.declared.Gap.{Gap};
ghost use Rattle.buffer.specs.Buffer.{part};
ghost use Rattle.rules.specs.Basics.{choose, is_blank};
ghost use Rattle.rules.specs.Scan.{cell, is_code};
ghost use Rattle.rules.specs.ClassBytes.{class_of, cells_of};
ghost use Rattle.rules.specs.Spacing.{spaced, put_plain, put_after_comma, put_at};
ghost use Rattle.spacing.specs.Respaced.{Trimmed, Wrote, Plain, Dropped, other_at, Room, Copied, Normalized};
ghost use Rattle.spacing.specs.Respaced.{InCode, KeptAt, NoBlank, Keeping, Evened, Unchanged};

mod busy;
mod odd;

use basics::{is_blank, is_closer};
use blocks::lanes;
use busy::Busy;
use odd::Odd;
use rules::Gap;
use rules::class_byte::CODE;

// The length of the text so far, and what its last character was.
#[derive(Clone, Copy)]
pub struct Respaced {
    pub len: usize,
    pub gap: Gap,
}

// A blank of code: a byte c of class k.
fn is_code_blank(c: u8, k: u8) -> bool
    ensures { result ≡ (is_code (class_of k) && is_blank c) }
{
    k == CODE && is_blank(c)
}

// The length of a text without the blanks at its end.
// kept: `rposition` takes 0.6 % more instructions of `commas` (tried)
fn trim_blanks(text: &[u8]) -> usize
    ensures { Trimmed text.now result }
{
    for i in (0..text.len()).rev() {
        if !is_blank(text[i]) {
            return i + 1;
        }
    }
    0
}

// kept: a byte c and its class byte k are no struct: it would be built from two slices for each byte, and taken apart
// where one of the two is tested. `out` and the length of the text at its front: it would have to hold the lent slice, and
// each function would take it apart again.

// One byte more after the text, the first n bytes of `out`.
fn put(c: u8, gap: Gap, out: &mut [u8], n: usize) -> Respaced
    requires { n < length out.old }
    ensures { Wrote (spaced (take n out.old ++ (c ∷ [])) gap) 1 out.old n out.new result }
{
    out[n] = c;
    Respaced { len: n + 1, gap }
}

// A byte c of class k before which nothing is added or left out, but that blanks go before a comma.
// kept: a `match` on c takes 1.3 % more instructions of `backslashes` (tried)
fn put_plain(c: u8, k: u8, out: &mut [u8], n: usize) -> Respaced
    requires { n < length out.old }
    ensures { Wrote (put_plain (take n out.old) (cell c (class_of k))) 1 out.old n out.new result }
{
    if k != CODE {
        return put(c, Gap::Nothing, out, n);
    }
    if c == b'\\' {
        return put(c, Gap::Escape, out, n);
    }
    if c == b',' {
        let m = trim_blanks(&out[..n]);
        return put(c, Gap::Comma, out, m);
    }
    if c == b' ' {
        return put(c, Gap::Space, out, n);
    }
    put(c, Gap::Nothing, out, n)
}

// A space, and then the byte.
fn put_apart(c: u8, k: u8, out: &mut [u8], n: usize) -> Respaced
    requires { n + 1 < length out.old }
    ensures { Wrote (put_plain (take n out.old ++ (32 ∷ [])) (cell c (class_of k))) 2 out.old n
        out.new result }
{
    out[n] = b' ';
    put_plain(c, k, out, n + 1)
}

// After a comma: blanks of code go, and one space stands before anything but a closer.
fn put_after_comma(c: u8, k: u8, out: &mut [u8], n: usize) -> Respaced
    requires { n + 1 < length out.old }
    ensures { Wrote (put_after_comma (take n out.old) (cell c (class_of k))) 2 out.old n out.new
        result }
{
    if is_code_blank(c, k) {
        return Respaced {
            len: n,
            gap: Gap::Comma,
        };
    }
    if is_closer(c) {
        return put_plain(c, k, out, n);
    }
    put_apart(c, k, out, n)
}

// After a space: another goes.
fn put_after_space(c: u8, k: u8, out: &mut [u8], n: usize) -> Respaced
    requires { n + 1 < length out.old }
    ensures { Wrote (put_at Gap.Space (take n out.old) (cell c (class_of k))) 2 out.old n out.new
        result }
{
    if c == b' ' {
        return Respaced {
            len: n,
            gap: Gap::Space,
        };
    }
    put_plain(c, k, out, n)
}

// A byte c of class k after the text t.
fn put_next(c: u8, k: u8, out: &mut [u8], t: Respaced) -> Respaced
    requires { t.len + 1 < length out.old }
    ensures { Wrote (put_at t.gap (take t.len out.old) (cell c (class_of k))) 2 out.old t.len
        out.new result }
{
    match t.gap {
        Gap::Nothing => put_plain(c, k, out, t.len),
        Gap::Escape => put(c, Gap::Nothing, out, t.len),
        Gap::Comma => put_after_comma(c, k, out, t.len),
        Gap::Space => put_after_space(c, k, out, t.len),
    }
}

// Whether c goes on as it is, whatever its class: nothing is remembered, and c is none of the bytes that spacing is
// about.
fn is_plain(c: u8, gap: Gap) -> bool
    ensures { Plain c gap result }
{
    gap == Gap::Nothing && !matches!(c, b'\\' | b',' | b' ')
}

// Past all spaces.
// kept: by vectors, as `utf8` passes those at a text's start, `commas` takes 2.7 % more instructions (tried)
fn past_spaces(line: &[u8], at: usize) -> usize
    requires { at ≤ length line.now }
    ensures { FirstFrom (other_at line.now) at (length line.now) result }
{
    blocks::first_by_blocks::<16, _>(at, line.len(), &|i| line[i] != b' ')
}

// Whether c goes because a space stands before it.
fn is_dropped(c: u8, gap: Gap) -> bool
    ensures { Dropped c gap result }
{
    c == b' ' && gap == Gap::Space
}

// Copies the line's first `kept` bytes.
fn put_kept(line: &[u8], out: &mut [u8], kept: usize)
    requires { (kept ≤ length line.now) × (kept ≤ length out.old) }
    ensures { Copied (take kept line.now) out.old out.new kept }
{
    buffer::put_line(&mut out[..kept], &line[..kept]);
}

// Writes the respaced line behind its first `kept` bytes, which stand there already, and gives its length.
fn respace(line: &[u8], class: &[u8], out: &mut [u8], kept: usize) -> usize
    requires room { Room (length line.now) class.now out.old }
    requires keeping { Keeping line.now class.now kept }
    requires copied { take kept out.old ≡ take kept line.now }
    ensures { Normalized (cells_of line.now class.now) out.old out.new (length line.now) result }
{
    let mut t = Respaced {
        len: kept,
        gap: Gap::Nothing,
    };
    let mut i = kept;
    // kept: a range is no plainer, since the place moves past all spaces of a run
    while i < line.len() {
        let c = line[i];
        if is_plain(c, t.gap) {
            t = put(c, Gap::Nothing, out, t.len);
            i += 1;
            continue;
        }
        if is_dropped(c, t.gap) {
            i = past_spaces(line, i + 1);
            continue;
        }
        t = put_next(c, class[i], out, t);
        i += 1;
    }
    t.len
}

// Writes the respaced line of a line with its class bytes, and gives its length. Spacing leaves its first `kept` bytes
// as they are.
// Apart from the line step, which seldom needs it.
#[inline(never)]
pub fn normalize_from(line: &[u8], class: &[u8], out: &mut [u8], kept: usize) -> usize
    requires room { Room (length line.now) class.now out.old }
    requires keeping { Keeping line.now class.now kept }
    ensures { Normalized (cells_of line.now class.now) out.old out.new (length line.now) result }
{
    put_kept(line, out, kept);
    respace(line, class, out, kept)
}

// The same of a line of which nothing is known.
pub fn normalize_spacing(line: &[u8], class: &[u8], out: &mut [u8]) -> usize
    requires { Room (length line.now) class.now out.old }
    ensures { Normalized (cells_of line.now class.now) out.old out.new (length line.now) result }
{
    normalize_from(line, class, out, 0)
}

// ---- a line that is spaced already. Each function tells how many bytes from i on stand as spacing leaves them, given
// that those before do, or that it can't tell.

// A space of code: no space follows.
fn kept_space(line: &[u8], class: &[u8], i: usize) -> Option<usize>
    requires { InCode line.now class.now i 32 }
    ensures { KeptAt line.now class.now i result }
{
    let j = i + 1;
    if j < line.len() && line[j] == b' ' {
        return None;
    }
    Some(1)
}

// A backslash of code, with the character that it escapes.
fn kept_pair(line: &[u8], class: &[u8], i: usize) -> Option<usize>
    requires { InCode line.now class.now i 92 }
    ensures { KeptAt line.now class.now i result }
{
    if i + 1 < line.len() { Some(2) } else { Some(1) }
}

// Whether a blank stands before i.
fn blank_before(line: &[u8], i: usize) -> bool
    requires { i ≤ length line.now }
    ensures { NoBlank line.now i result }
{
    0 < i && is_blank(line[i - 1])
}

// A comma and the space of code after it: something other than a blank of code or a closer follows.
fn kept_gap(line: &[u8], class: &[u8], i: usize) -> Option<usize>
    requires in_code { InCode line.now class.now i 44 }
    requires no_blank { NoBlank line.now i false }
    requires in_code_2 { InCode line.now class.now (i + 1) 32 }
    ensures { KeptAt line.now class.now i result }
{
    let e = i + 2;
    if line.len() <= e || is_code_blank(line[e], class[e]) || is_closer(line[e]) {
        return None;
    }
    Some(2)
}

// A comma of code: no blank before it; a closer, the end or one space after it.
fn kept_comma(line: &[u8], class: &[u8], i: usize) -> Option<usize>
    requires { InCode line.now class.now i 44 }
    ensures { KeptAt line.now class.now i result }
{
    let j = i + 1;
    if blank_before(line, i) {
        return None;
    }
    if line.len() <= j || is_closer(line[j]) {
        return Some(1);
    }
    if line[j] != b' ' || class[j] != CODE {
        return None;
    }
    kept_gap(line, class, i)
}

fn kept_special(line: &[u8], class: &[u8], i: usize) -> Option<usize>
    requires { (i < length line.now) × (length line.now ≤ length class.now) }
    ensures { KeptAt line.now class.now i result }
{
    if class[i] != CODE {
        return Some(1);
    }
    match line[i] {
        b' ' => kept_space(line, class, i),
        b',' => kept_comma(line, class, i),
        b'\\' => kept_pair(line, class, i),
        _ => Some(1),
    }
}

// kept: in one function with `kept_special`, `if and else` takes 0.5 % more instructions (tried)
fn kept_at(line: &[u8], class: &[u8], i: usize) -> Option<usize>
    requires { (i < length line.now) × (length line.now ≤ length class.now) }
    ensures { KeptAt line.now class.now i result }
{
    match line[i] {
        b' ' | b',' | b'\\' => kept_special(line, class, i),
        _ => Some(1),
    }
}

// Past the bytes from i on that are not odd, up to the last two, of which no vector tells. None is passed in a line too
// short for a vector, at the line's first byte, and at a backslash of code, which is odd.
fn even_to(line: &[u8], class: &[u8], i: usize) -> usize
    requires in_bounds { (i < length line.now) × (length line.now ≤ length class.now) }
    requires keeping { Keeping line.now class.now i }
    ensures { Evened line.now class.now i result }
{
    let n = line.len();
    if n < 11 || i == 0 || n - 3 < i || (line[i] == b'\\' && class[i] == CODE) {
        return i;
    }
    lanes::first(&Odd { line, class }, i - 1, n - 3) + 1
}

// How many bytes spacing leaves as they are, from the first i on, which it does.
// Apart from the line step, which seldom needs it.
#[inline(never)]
fn spaced_from(line: &[u8], class: &[u8], from: usize) -> usize
    requires long { length line.now ≤ length class.now }
    requires keeping { Keeping line.now class.now from }
    ensures { Keeping line.now class.now result }
{
    let n = line.len();
    let mut i = from;
    // kept: a range is no plainer, since the place moves by as many bytes as are kept
    while i < n {
        let e = even_to(line, class, i);
        let Some(more) = kept_at(line, class, e) else {
            return e;
        };
        i = e + more;
    }
    i
}

// How many bytes spacing leaves as they are, as far as a look at each byte and its neighbours tells: at first without
// the classes, up to a busy byte.
pub fn spaced_to(line: &[u8], class: &[u8]) -> usize
    requires { length line.now ≤ length class.now }
    ensures { Keeping line.now class.now result }
{
    let n = line.len();
    if n == 0 {
        return 0;
    }
    let i = lanes::first(&Busy { line }, 0, n - 1);
    if i == n - 1 && line[i] != b',' {
        return n;
    }
    spaced_from(line, class, i)
}

// Whether it leaves the line whole as it is, as far as that tells.
pub fn is_spaced(line: &[u8], class: &[u8]) -> bool
    requires { length line.now ≤ length class.now }
    ensures { Unchanged line.now class.now result }
{
    spaced_to(line, class) == line.len()
}

// The line that goes on: the source line kept as written, or the respaced line, len bytes of scratch from at on.
pub fn line_that_goes_on<'a>(
    source_line: &'a [u8],
    scratch: &'a [u8],
    unchanged: bool,
    at: usize,
    len: usize,
) -> &'a [u8]
    requires { at + len ≤ length scratch.now }
    ensures { result.now ≡ choose unchanged source_line.now
        (part scratch.now at (at + len)) }
{
    if unchanged {
        source_line
    } else {
        &scratch[at..at + len]
    }
}
