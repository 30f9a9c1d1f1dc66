// From the first byte of the opened text to its last: where operations end. The operators whose right operand still
// goes on stand on a stack in front of the bytes that are left, the nearest on top, 0 for a bracket.
#![tactic(auto)]

ghost use Rattle.std.specs.Prelude.{◌≡◌, [], ◌+◌, ◌≤◌, ◌<◌, ◌^◌, length, ℕ, Bool};
ghost use Rattle.buffer.specs.Buffer.{part, Appended};
ghost use Rattle.group_rules.specs.Passes.{closes_before, close_end, closed_text};
ghost use Rattle.group_close.specs.Forth.{Room, Tells, close_until, Put, Pushed, Closed, Stepped};
ghost use Rattle.group_close.specs.Forth.{Ready, ForthTo, begins};

use group_open::{enters, second_takes, stops};
use group_rules::{CLOSER, Code, OPENER};

// The text's length so far, and the stack's height.
#[derive(Clone, Copy)]
pub struct Spot {
    pub length: usize,
    pub top: usize,
}

// The same, and the place of the byte that is next.
#[derive(Clone, Copy)]
pub struct Forth {
    pub at: usize,
    pub spot: Spot,
}

impl Spot {
    // Writes a byte of the text, if it fits.
    fn put(self, out: &mut [u8], b: u8) -> Spot
        requires { self.length < 2 ^ 63 }
        ensures { Put out.old out.new self b result }
    {
        if self.length < out.len() {
            out[self.length] = b;
        }
        Spot {
            length: self.length + 1,
            ..self
        }
    }

    // Puts a strength on top of the stack.
    fn push(self, scratch: &mut [u8], s: u8) -> Spot
        requires { self.top < length scratch.old }
        ensures { Pushed scratch.old scratch.new self s result }
    {
        scratch[self.top] = s;
        Spot {
            top: self.top + 1,
            ..self
        }
    }
}

// Takes operations off the stack down to the first whose strength passes the test: `)` for each.
fn close_until<F: Fn(u8) -> bool>(scratch: &[u8], out: &mut [u8], spot: Spot, stop: &F) -> Spot
    ghost meets: { ℕ → Bool }
    requires tells { Tells (F.pre stop.now) (F.post stop.now) meets }
    requires room { Room scratch.now spot 0 }
    ensures { Closed scratch.now out.old out.new spot (close_until meets) result }
{
    let mut o = spot;
    // kept: a range is no plainer, since the stack is taken from its top until one stays
    while 0 < o.top && !stop(scratch[o.top - 1]) {
        o.top -= 1;
        o = o.put(out, b')');
    }
    o
}

// Operations that end before an operator of strength s.
#[tactic(auto, using(crate::proofs::ForthLaws::closed_before))]
fn close_before(scratch: &[u8], out: &mut [u8], s: u8, spot: Spot) -> Spot
    requires { Room scratch.now spot 0 }
    ensures { Closed scratch.now out.old out.new spot (closes_before s) result }
{
    close_until(scratch, out, spot, &|t| second_takes(t, s))
}

// Operations that end before a closing bracket, or at the end.
#[tactic(auto, using(crate::proofs::ForthLaws::closed_end))]
fn close_end(scratch: &[u8], out: &mut [u8], spot: Spot) -> Spot
    requires { Room scratch.now spot 0 }
    ensures { Closed scratch.now out.old out.new spot close_end result }
{
    close_until(scratch, out, spot, &|t| t == 0)
}

#[tactic(auto, using(crate::proofs::ForthLaws::stepped_bracket))]
fn close_bracket(scratch: &[u8], out: &mut [u8], spot: Spot) -> Spot
    requires { Room scratch.now spot 1 }
    ensures { Stepped scratch.now scratch.now out.old out.new 15 spot result }
{
    let c = close_end(scratch, out, spot);
    Spot {
        top: c.top.saturating_sub(1),
        ..c
    }
}

fn close_operator(scratch: &mut [u8], out: &mut [u8], s: u8, spot: Spot) -> Spot
    requires { (s ≤ 12) × Room scratch.old spot 1 }
    ensures { Stepped scratch.old scratch.new out.old out.new s spot result }
{
    let c = close_before(scratch, out, s, spot);
    let p = c.put(out, b' ');
    p.push(scratch, s)
}

// One byte.
#[tactic(auto, using(crate::proofs::ForthLaws::stepped_opener, crate::proofs::ForthLaws::stepped_plain))]
fn close_code(scratch: &mut [u8], out: &mut [u8], b: u8, spot: Spot) -> Spot
    requires { Room scratch.old spot 1 }
    ensures { Stepped scratch.old scratch.new out.old out.new b spot result }
{
    match Code::from(b) {
        Code::Closer => close_bracket(scratch, out, spot),
        Code::Opener => spot.push(scratch, 0),
        Code::Left(s) => close_operator(scratch, out, s, spot),
        Code::Right(_) | Code::Text(_) => spot.put(out, b),
    }
}

// The byte that is next.
fn step_forth(scratch: &mut [u8], out: &mut [u8], end: usize, s: Forth) -> Forth
    requires { (s.at < end) × Ready scratch.old end s }
    ensures { ForthTo scratch.old scratch.new out.old out.new end 1 s result × (result.at ≡ s.at + 1) }
{
    let b = scratch[s.at];
    Forth {
        at: s.at + 1,
        spot: close_code(scratch, out, b, s.spot),
    }
}

// The same, if one is left.
#[tactic(auto, using(crate::proofs::ForthLaws::forth_none))]
fn past_one(scratch: &mut [u8], out: &mut [u8], end: usize, s: Forth) -> Forth
    requires { Ready scratch.old end s }
    ensures { ForthTo scratch.old scratch.new out.old out.new end 1 s result }
{
    if s.at < end {
        step_forth(scratch, out, end, s)
    } else {
        s
    }
}

// Writes up to the end, or in a bracket up to the byte that closes it. No more than 64 calls stand in each other.
fn close_forth(scratch: &mut [u8], out: &mut [u8], end: usize, depth: usize, from: Forth) -> Forth
    requires { (depth ≤ 64) × Ready scratch.old end from }
    ensures { ForthTo scratch.old scratch.new out.old out.new
        end depth from result }
{
    let mut s = from;
    // kept: a range is no plainer, since a bracket's inside is passed by one call
    while s.at < end {
        let b = scratch[s.at];
        if stops(depth, b, CLOSER) {
            return s;
        }
        s = step_forth(scratch, out, end, s);
        if enters(depth, b, OPENER) {
            s = close_forth(scratch, out, end, depth + 1, s);
            s = past_one(scratch, out, end, s);
        }
    }
    s
}

// Writes the text of the opened text that stands from a place up to `end`, and gives its whole length.
pub fn close_all(scratch: &mut [u8], out: &mut [u8], from: usize, end: usize) -> usize
    requires { Ready scratch.old end (begins from) }
    ensures { Appended out.old out.new 0 (closed_text
        (part scratch.old from end)) result }
{
    let start = Forth {
        at: from,
        spot: Spot { length: 0, top: 0 },
    };
    let forth = close_forth(scratch, out, end, 0, start);
    close_end(scratch, out, forth.spot).length
}
