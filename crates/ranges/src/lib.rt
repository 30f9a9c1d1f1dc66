// Ranges: numbers of any length in a path, compared with the ends of a range digit by digit, the lowest first.
#![tactic(auto)]

ghost use Rattle.std.specs.Prelude.{◌≡◌, ◌+◌, ◌≤◌, ◌<◌, length, get_or, take, drop, ltb, eqb};
ghost use Rattle.config_rules.specs.Numbers.{number_len};
ghost use Rattle.glob_name.specs.Read.{range_more};
ghost use Rattle.ranges.specs.Slots.{order_then, not_above, not_below, whole_of, inside_of};
ghost use Rattle.ranges.specs.Ranges.{lows, EndAt, RangeOf, end_of, slot_step, slot_in, first_slot, FarNext};
ghost use Rattle.ranges.specs.Ranges.{PastZeros, turned, opposite, any_slot, Moved, Empty, RangeNext};

use glob_name::read::number_len;
use glob_pass::PLACES;
use glob_pass::code_points::{MINUS, NINE, ZERO};
use std::cmp::Ordering;

// An end of a range: whether a minus stands before it, where its digits end, and how many there are without leading
// zeros.
#[derive(Clone, Copy)]
pub struct End {
    pub minus: bool,
    pub end: usize,
    pub digits: usize,
}

// A range, and how many slots it has.
#[derive(Clone, Copy)]
pub struct Range {
    pub first: End,
    pub second: End,
    pub width: usize,
}

// The orders of a number against the two ends.
#[derive(Clone, Copy)]
pub struct Orders {
    pub first: Ordering,
    pub second: Ordering,
}

// What is kept of the numbers with more characters than there are slots: whether one of the range comes next, as it
// stands and behind a minus. And whether one of any length comes next behind a minus.
#[derive(Clone, Copy)]
pub struct Far {
    pub plain: bool,
    pub minus: bool,
    pub behind: bool,
}

// What is kept of the ranges of a name. The j-th place behind the brace of a range has slot j, for numbers of j
// characters; the brace's own place has the rest.
// kept: fixed memory: there is no heap, and a name has at most 1,024 characters. Its fields are public: `range_next` takes
// any slots, and private ones would ask more of its callers
#[derive(Clone, Copy)]
pub struct State {
    pub slots: [Option<Orders>; PLACES],
    pub far: [Far; PLACES],
}

impl End {
    // Whether a number is at most the end, by its order against the end's value.
    #[tactic(auto, unfolding(rules::specs::Basics::choose, crate::specs::Slots::not_above))]
    fn not_above(self, order: Ordering) -> bool
        ensures { result ≡ not_above self.minus (eqb self.digits 0) order }
    {
        if self.minus {
            (self.digits == 0) & order.is_eq()
        } else {
            order.is_le()
        }
    }

    // Whether it is at least the end.
    #[tactic(auto, unfolding(crate::specs::Slots::not_below))]
    fn not_below(self, order: Ordering) -> bool
        ensures { result ≡ not_below self.minus order }
    {
        self.minus | order.is_ge()
    }

    // The order against the whole end, from that against its lowest j digits.
    #[tactic(auto, unfolding(rules::specs::Basics::choose))]
    fn whole(self, j: usize, order: Ordering) -> Ordering
        ensures { result ≡ whole_of (ltb j self.digits) order }
    {
        if j < self.digits {
            Ordering::Less
        } else {
            order
        }
    }

    // With the other sign.
    fn turned(self) -> End
        ensures { result ≡ turned self }
    {
        End {
            minus: !self.minus,
            ..self
        }
    }

    // The digit at place j, the lowest first.
    fn digit(self, chars: &[u32], j: usize) -> u32
        requires { (self.digits ≤ self.end) × (self.end ≤ length chars.now) }
        ensures { result ≡ get_or (lows chars.now self.end self.digits) j 48 }
    {
        if j < self.digits {
            chars[self.end - 1 - j]
        } else {
            ZERO
        }
    }
}

impl Range {
    // Whether a number is in the range, by its orders o and q against the ends.
    fn holds(self, o: Ordering, q: Ordering) -> bool
        ensures { result ≡ inside_of self.first.minus (eqb self.first.digits 0)
            self.second.minus (eqb self.second.digits 0) o q }
    {
        let above_first = self.first.not_below(o);
        let below_second = self.second.not_above(q);
        let above_second = self.second.not_below(q);
        let below_first = self.first.not_above(o);
        (above_first & below_second) | (above_second & below_first)
    }

    // With both signs changed.
    fn opposite(self) -> Range
        ensures { result ≡ opposite self }
    {
        Range {
            first: self.first.turned(),
            second: self.second.turned(),
            width: self.width,
        }
    }
}

// The order of two numbers, after a digit c is put before the one and d before the other.
fn order_then(c: u32, d: u32, order: Ordering) -> Ordering
    ensures { result ≡ order_then c d order }
{
    c.cmp(&d).then(order)
}

// The slot above `slot`, where d and e are the digits of the ends there.
#[tactic(auto, unfolding(rules::specs::Basics::choose, crate::specs::Ranges::slot_step))]
fn slot_next(slot: Option<Orders>, c: u32, d: u32, e: u32) -> Option<Orders>
    ensures { result ≡ slot_step slot c d e }
{
    let orders = slot?;
    if (c < ZERO) | (NINE < c) {
        return None;
    }
    Some(Orders {
        first: order_then(c, d, orders.first),
        second: order_then(c, e, orders.second),
    })
}

// Whether the number that slot j tells of is in the range.
#[tactic(auto, unfolding(crate::specs::Ranges::slot_in))]
fn slot_in(slot: Option<Orders>, j: usize, range: Range) -> bool
    ensures { result ≡ slot_in range j slot }
{
    let Some(orders) = slot else {
        return false;
    };
    let o = range.first.whole(j, orders.first);
    let q = range.second.whole(j, orders.second);
    range.holds(o, q)
}

// The slots of the range at p, one character more of the path: each is moved one up, the highest first.
// kept: the new form is no plainer: no kind is read here or below, and a `Name` without kinds makes `chars.now`
// `name.entry.chars.now`
fn slots_next(chars: &[u32], slots: &mut [Option<Orders>; PLACES], p: usize, range: Range, c: u32)
    requires { RangeOf chars.now p range × (length chars.now < PLACES) }
    ensures { Moved chars.now p range c slots.old slots.new }
{
    for j in (0..range.width).rev() {
        let d = range.first.digit(chars, j);
        let e = range.second.digit(chars, j);
        slots[p + j + 1] = slot_next(slots[p + j], c, d, e);
    }
}

// Whether one of the slots of the range at p tells of a number in it.
fn any_slot(slots: &[Option<Orders>; PLACES], p: usize, range: Range) -> bool
    requires { p + range.width < PLACES }
    ensures { result ≡ any_slot range slots.now p range.width }
{
    (1..range.width + 1).any(|j| slot_in(slots[p + j], j, range))
}

// Numbers of more characters than there are slots: only a 0 before them keeps them, and the highest slot joins them.
fn far_next(range: Range, last: Option<Orders>, far: Far, c: u32) -> (bool, bool)
    ensures { FarNext range last far c result }
{
    let w = range.width;
    let in_plain = slot_in(last, w, range);
    let in_minus = slot_in(last, w, range.opposite());
    (
        (c == ZERO) & (in_plain | far.plain),
        (c == ZERO) & (in_minus | far.minus),
    )
}

// Past the zeros that a number starts with.
fn past_zeros(chars: &[u32], from: usize, end: usize) -> usize
    requires { (from ≤ end) × (end ≤ length chars.now) }
    ensures { PastZeros chars.now from end result }
{
    blocks::first_from(from, end, &|i| chars[i] != ZERO)
}

// The end of a range that stands at `from` and is n characters long.
fn end_at(chars: &[u32], from: usize, n: usize) -> End
    requires { (n ≡ number_len (drop from chars.now)) × (0 < n) × (from + n ≤ length chars.now) ×
        (length chars.now < PLACES) }
    ensures { EndAt chars.now (take n (drop from chars.now)) result × (result.digits ≤ n) ×
        (result ≡ end_of chars.now from n) }
{
    let end = from + n;
    let minus = chars[from] == MINUS;
    let start = past_zeros(chars, from + usize::from(minus), end);
    End {
        minus,
        end,
        digits: end - start,
    }
}

// The range whose brace stands at p: it has as many slots as the longer end has digits, and one at least.
fn range_at(chars: &[u32], p: usize) -> Range
    requires { (0 < range_more chars.now (p + 1)) × (p < length chars.now) × (length chars.now < PLACES) }
    ensures { RangeOf chars.now p result }
{
    let m = number_len(chars, p + 1).unwrap();
    let first = end_at(chars, p + 1, m);
    let from = p + 1 + m + 2;
    let n = number_len(chars, from).unwrap();
    let second = end_at(chars, from, n);
    Range {
        first,
        second,
        width: first.digits.max(second.digits).max(1),
    }
}

// The slot of no characters: equal to both ends' lowest digits.
#[tactic(auto, unfolding(rules::specs::Basics::choose, crate::specs::Ranges::first_slot))]
fn first_slot(next: bool) -> Option<Orders>
    ensures { result ≡ first_slot next }
{
    next.then_some(Orders {
        first: Ordering::Equal,
        second: Ordering::Equal,
    })
}

impl State {
    // Before any character is read.
    pub fn empty() -> State
        ensures { Empty result }
    {
        State {
            slots: [None; PLACES],
            far: [Far {
                plain: false,
                minus: false,
                behind: false,
            }; PLACES],
        }
    }

    // The range at p, one character more of the path: `next` is the value behind the range without the character.
    fn step(&mut self, chars: &[u32], p: usize, range: Range, next: bool, c: u32) -> bool
        requires { RangeOf chars.now p range × (length chars.now < PLACES) }
        ensures { RangeNext chars.now p next c self.old self.new result }
    {
        let last = self.slots[p + range.width];
        let far = self.far[p];
        self.slots[p] = first_slot(next);
        slots_next(chars, &mut self.slots, p, range, c);
        let near_plain = any_slot(&self.slots, p, range);
        let near_minus = any_slot(&self.slots, p, range.opposite());
        let (plain, minus) = far_next(range, last, far, c);
        self.far[p] = Far {
            plain,
            minus,
            behind: near_minus | minus,
        };
        if c == MINUS {
            far.behind
        } else {
            near_plain | plain
        }
    }

    // The same where a range's brace stands at p.
    pub fn range_next(&mut self, chars: &[u32], p: usize, next: bool, c: u32) -> bool
        requires { (0 < range_more chars.now (p + 1)) × (p < length chars.now) × (length chars.now < PLACES) }
        ensures { RangeNext chars.now p next c self.old self.new result }
    {
        let range = range_at(chars, p);
        self.step(chars, p, range, next, c)
    }
}
