// From the last code to the first: where operations start. The operators whose left operand still goes on stand on a
// stack in scratch after the opened text, the nearest on top, 0 for a bracket. Of n codes, the opened text ends at 3 ×
// n.
#![tactic(auto)]

ghost use Rattle.std.specs.Prelude.{◌≡◌, ◌∷◌, ◌&&◌, eqb, ltb, ◌+◌, ◌*◌, ◌-◌, ◌≤◌, ◌<◌, length, take};
ghost use Rattle.buffer.specs.Buffer.{part};
ghost use Rattle.group_rules.specs.Grouping.{takes};
ghost use Rattle.group_rules.specs.Passes.{pass, opens_after, open_bracket, open_operator, back_step};
ghost use Rattle.group_open.specs.Back.{stack_of, pass_in, Room, Put, Pushed, Opened, Moved, Backed, BackTo, OpenedAll};

use group_rules::{CLOSER, Code, MAX_DEPTH, OPENER};

// The place that the opened text has reached, and the stack's height.
#[derive(Clone, Copy)]
pub struct Spot {
    pub at: usize,
    pub top: usize,
}

// The same, and how many codes are left to read.
#[derive(Clone, Copy)]
pub struct Back {
    pub left: usize,
    pub spot: Spot,
}

impl Spot {
    // Puts a byte in front of the opened text.
    fn put(self, scratch: &mut [u8], b: u8) -> Spot
        requires { (0 < self.at) × (self.at ≤ length scratch.old) }
        ensures { Put scratch.old scratch.new self b result }
    {
        let at = self.at - 1;
        scratch[at] = b;
        Spot { at, ..self }
    }

    // Puts a strength on top of the stack.
    fn push(self, scratch: &mut [u8], n: usize, s: u8) -> Spot
        requires { 3 * n + self.top < length scratch.old }
        ensures { Pushed scratch.old scratch.new n self s result }
    {
        scratch[3 * n + self.top] = s;
        Spot {
            top: self.top + 1,
            ..self
        }
    }
}

// Of two operators in this order, whether the second takes the operand between.
pub fn second_takes(s: u8, t: u8) -> bool
    ensures { result ≡ takes s t }
{
    s < t || (s == t && t == 12)
}

// Operations that start after an operator of strength s, or after a bracket or nothing where s is 0: `(` for each, off
// the stack.
fn open_after(scratch: &mut [u8], n: usize, s: u8, spot: Spot) -> Spot
    requires { Room scratch.old n spot 0 }
    ensures { Opened scratch.old scratch.new n s spot result }
{
    let base = 3 * n;
    let mut o = spot;
    // kept: a range is no plainer, since the stack is taken from its top until one stays
    while 0 < o.top && second_takes(s, scratch[base + (o.top - 1)]) {
        o.top -= 1;
        o = o.put(scratch, b'(');
    }
    o
}

fn open_bracket(scratch: &mut [u8], n: usize, spot: Spot) -> Spot
    requires { Room scratch.old n spot 1 }
    ensures { Moved scratch.old scratch.new n spot (open_bracket
        (opens_after 0 (part scratch.old spot.at (3 * n)) (stack_of scratch.old (3 * n) spot.top))) result }
{
    let o = open_after(scratch, n, 0, spot);
    let p = o.put(scratch, OPENER);
    Spot {
        top: p.top.saturating_sub(1),
        ..p
    }
}

fn open_closer(scratch: &mut [u8], n: usize, spot: Spot) -> Spot
    requires { Room scratch.old n spot 1 }
    ensures { Moved scratch.old scratch.new n spot (pass
        (15 ∷ part scratch.old spot.at (3 * n)) (0 ∷ stack_of scratch.old (3 * n) spot.top)) result }
{
    let p = spot.put(scratch, CLOSER);
    p.push(scratch, n, 0)
}

fn open_operator(scratch: &mut [u8], n: usize, s: u8, spot: Spot) -> Spot
    requires { Room scratch.old n spot 1 }
    ensures { Moved scratch.old scratch.new n spot (open_operator s
        (opens_after s (part scratch.old spot.at (3 * n)) (stack_of scratch.old (3 * n) spot.top))) result }
{
    let o = open_after(scratch, n, s, spot);
    let p = o.put(scratch, b' ');
    p.push(scratch, n, s)
}

// One code.
fn open_code(scratch: &mut [u8], n: usize, b: u8, spot: Spot) -> Spot
    requires { Room scratch.old n spot 1 }
    ensures { Moved scratch.old scratch.new n spot (back_step b
        (pass_in scratch.old n spot)) result }
{
    match Code::from(b) {
        Code::Opener => open_bracket(scratch, n, spot),
        Code::Closer => open_closer(scratch, n, spot),
        Code::Right(s) => open_operator(scratch, n, s, spot),
        Code::Left(_) | Code::Text(_) => spot.put(scratch, b),
    }
}

// The last code that is left.
#[tactic(auto, using(crate::proofs::BackLaws::backed_step))]
fn step_back(scratch: &mut [u8], n: usize, s: Back) -> Back
    requires { (0 < s.left) × Backed (take n scratch.old) scratch.old n s }
    ensures { BackTo scratch.old scratch.new n 1 (s.left - 1) result }
{
    let left = s.left - 1;
    let b = scratch[left];
    Back {
        left,
        spot: open_code(scratch, n, b, s.spot),
    }
}

// The same, if one is left.
fn past_one(scratch: &mut [u8], n: usize, s: Back) -> Back
    requires { Backed (take n scratch.old) scratch.old n s }
    ensures { BackTo scratch.old scratch.new n 1 s.left result }
{
    if 0 < s.left {
        step_back(scratch, n, s)
    } else {
        s
    }
}

// Whether b is the code at which a bracket's end is told, if brackets are open.
pub fn stops(depth: usize, b: u8, code: u8) -> bool
    ensures { result ≡ (ltb 0 depth && eqb b code) }
{
    0 < depth && b == code
}

// Whether b is the code that leads into a bracket, and there may be one more.
pub fn enters(depth: usize, b: u8, code: u8) -> bool
    ensures { result ≡ (ltb depth 64 && eqb b code) }
{
    depth < MAX_DEPTH && b == code
}

// Reads back to the first code, or in a bracket to the code that opens it. No more than 64 calls stand in each other.
fn open_back(scratch: &mut [u8], n: usize, depth: usize, from: Back) -> Back
    requires { (depth ≤ 64) × Backed (take n scratch.old) scratch.old n from }
    ensures { BackTo scratch.old scratch.new n depth from.left result }
{
    let mut s = from;
    // kept: a range is no plainer, since a bracket's inside is passed by one call
    while 0 < s.left {
        let b = scratch[s.left - 1];
        if stops(depth, b, OPENER) {
            return s;
        }
        s = step_back(scratch, n, s);
        if enters(depth, b, CLOSER) {
            s = open_back(scratch, n, depth + 1, s);
            s = past_one(scratch, n, s);
        }
    }
    s
}

// The opened text of n codes ends at 3 × n; where it starts.
pub fn open_all(scratch: &mut [u8], n: usize) -> usize
    requires { 4 * n ≤ length scratch.old }
    ensures { OpenedAll scratch.old scratch.new n result }
{
    if n == 0 {
        return 0;
    }
    let start = Back {
        left: n,
        spot: Spot { at: 3 * n, top: 0 },
    };
    let back = open_back(scratch, n, 0, start);
    open_after(scratch, n, 0, back.spot).at
}
