// Writing into lent buffers. An output may be too short: what fits is written, and the whole length is given.
#![tactic(auto)]

ghost use Rattle.std.specs.Prelude.{◌≡◌, ◌+◌, ◌≤◌, ◌<◌, ◌^◌, ◌++◌, length, replicate};
ghost use Rattle.buffer.specs.Buffer.{Wrote, Appended, Finishes, AllAre};
ghost use Rattle.buffer.specs.Copy.{Copies};
ghost use Rattle.buffer.specs.Pad.{spelled};

pub mod pad;

use pad::Pad;

// Sets every byte of s to b.
pub fn fill(s: &mut [u8], b: u8)
    ensures { s.new ≡ replicate (length s.old) b }
{
    s.fill(b);
}

// Sets every byte of s to 0.
pub fn zero(s: &mut [u8])
    ensures { s.new ≡ replicate (length s.old) 0 }
{
    fill(s, 0);
}

// Copies W bytes from `at` on. All are read before one is written, so that it is one load and one store.
fn copy_block<const W: usize>(out: &mut [u8], line: &[u8], at: usize)
    requires { (at + W ≤ length out.old) × (at + W ≤ length line.now) }
    ensures { Copies out.old out.new line.now at W }
{
    let mut b = [0u8; W];
    b.copy_from_slice(&line[at..at + W]);
    out[at..at + W].copy_from_slice(&b);
}

// Copies the first n bytes: from 16 on by blocks of 16, of which the last may overlap, and below by two blocks.
fn copy_long(out: &mut [u8], line: &[u8], n: usize)
    requires n_in_bounds { (n ≤ length out.old) × (n ≤ length line.now) }
    requires le_n { 16 ≤ n }
    ensures { Copies out.old out.new line.now 0 n }
{
    let last = n - 16;
    for i in (0..last).step_by(16) {
        copy_block::<16>(out, line, i);
    }
    copy_block::<16>(out, line, last);
}

fn copy_twice<const W: usize>(out: &mut [u8], line: &[u8], n: usize)
    requires n_in_bounds { (n ≤ length out.old) × (n ≤ length line.now) }
    requires w_le_n { (W ≤ n) × (n ≤ W + W) }
    ensures { Copies out.old out.new line.now 0 n }
{
    copy_block::<W>(out, line, 0);
    copy_block::<W>(out, line, n - W);
}

// The same of any number.
fn copy(out: &mut [u8], line: &[u8], n: usize)
    requires { (n ≤ length out.old) × (n ≤ length line.now) }
    ensures { Copies out.old out.new line.now 0 n }
{
    if 16 <= n {
        copy_long(out, line, n);
    } else if 8 <= n {
        copy_twice::<8>(out, line, n);
    } else if 4 <= n {
        copy_twice::<4>(out, line, n);
    } else if 2 <= n {
        copy_twice::<2>(out, line, n);
    } else if n == 1 {
        copy_block::<1>(out, line, 0);
    }
}

// Writes as much of line as fits over the front of out, and gives the line's whole length.
#[tactic(auto, using(crate::proofs::CopyLaws::copied))]
pub fn put_line(out: &mut [u8], line: &[u8]) -> usize
    ensures { Wrote out.old out.new line.now result }
{
    let n = line.len().min(out.len());
    copy(out, line, n);
    line.len()
}

// Writes line into the part of out that starts at the place at, which may lie past the end, and gives the next place.
pub fn append(out: &mut [u8], at: usize, line: &[u8]) -> usize
    requires { at + length line.now < 2 ^ 64 }
    ensures { Appended out.old out.new at line.now result }
{
    let p = at.min(out.len());
    let n = put_line(&mut out[p..], line);
    at + n
}

// Whether every byte of s is b.
pub fn all_are(s: &[u8], b: u8) -> bool
    ensures { AllAre s.now b result }
{
    s.iter().all(|x| *x == b)
}

// Writes n times the byte b over the front of out.
fn put_run(out: &mut [u8], b: u8, n: usize) -> usize
    ensures { Wrote out.old out.new (replicate n b) result }
{
    let m = n.min(out.len());
    fill(&mut out[..m], b);
    n
}

// put_indent for an indent of several kinds of byte, level by level: no more turns than out has bytes.
fn put_levels(out: &mut [u8], pad: Pad<'_>) -> usize
    ensures { Wrote out.old out.new (spelled pad.entry) result }
{
    let n = pad.indent.len();
    let all = pad.len();
    let mut at = 0;
    for _ in 0..pad.levels {
        if out.len() <= at {
            return all;
        }
        put_line(&mut out[at..], pad.indent);
        at += n;
    }
    all
}

// Writes the indent, levels times over, over the front of out, and gives the whole length. An indent of one kind of
// byte is one fill.
pub fn put_indent(out: &mut [u8], pad: Pad<'_>) -> usize
    ensures { Wrote out.old out.new (spelled pad.entry) result }
{
    if pad.indent.is_empty() {
        return 0;
    }
    let b = pad.indent[0];
    if all_are(pad.indent, b) {
        return put_run(out, b, pad.len());
    }
    put_levels(out, pad)
}

// Writes the indent, levels times over, and the line from the place at on, and gives the next place.
pub fn append_indented(out: &mut [u8], at: usize, pad: Pad<'_>, line: &[u8]) -> usize
    requires { at + (length (spelled pad) + length line.now) < 2 ^ 64 }
    ensures { Appended out.old out.new at (spelled pad.entry ++ line.now) result }
{
    let p = at.min(out.len());
    let n = put_indent(&mut out[p..], pad);
    append(out, at + n, line)
}

// Zeros what stands after a text of length at.
pub fn finish(out: &mut [u8], at: usize)
    requires { at ≤ length out.old }
    ensures { Finishes out.old out.new at }
{
    out[at..].fill(0);
}
