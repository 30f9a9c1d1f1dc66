// One pass over a name that is held as a kind and a character for each place: which of its places match a string, read
// from its end.
#![tactic(auto)]

pub mod code_points;
pub mod kinds;
pub mod name;
pub mod set;

ghost use Rattle.std.specs.Prelude.{◌≡◌, [], ◌+◌, ◌<◌, length, drop, get_or};
ghost use Rattle.glob_pass.specs.Kinds.{held_at};
ghost use Rattle.glob_pass.specs.Held.{tokens_held};
ghost use Rattle.glob_pass.specs.Pass.{open_braces, Braced, Valued, Passed};

use code_points::SLASH;
use kinds::{Brace, Kind};
use name::Name;

// The characters of a name of at most 1,024, with a slash before it.
pub const CHARS: usize = 1025;

// Its places: one more, behind the last character.
pub const PLACES: usize = 1026;

// What is known at a place: the value at the next place, the old values here and there, and the value of a range.
#[derive(Clone, Copy)]
pub struct Known {
    pub next: bool,
    pub old: bool,
    pub prior: bool,
    pub hit: bool,
}

// Of an open brace: whether one of its alternatives to the right matches, and what follows it.
#[derive(Clone, Copy)]
struct Side {
    others: bool,
    after: bool,
}

// The open braces, the first `depth` of `sides`, the innermost last.
// kept: fixed memory: there is no heap, and a name has at most 1,024 characters
#[derive(Clone, Copy)]
pub struct Braces {
    sides: [Side; PLACES],
    depth: usize,
}

impl Braces {
    // No brace.
    pub fn none() -> Braces
        ensures { open_braces result ≡ [] }
    {
        Braces {
            sides: [Side {
                others: false,
                after: false,
            }; PLACES],
            depth: 0,
        }
    }

    // The value before a brace or a comma, where `next` is that behind it.
    fn step(&mut self, brace: Brace, next: bool) -> bool
        requires { self.old.depth < PLACES }
        ensures { Braced brace self.old next self.new result }
    {
        if brace == Brace::Closes {
            self.sides[self.depth] = Side {
                others: false,
                after: next,
            };
            self.depth += 1;
            return next;
        }
        if self.depth == 0 {
            return next;
        }
        let top = self.sides[self.depth - 1];
        if brace == Brace::Comma {
            self.sides[self.depth - 1].others = next | top.others;
            return top.after;
        }
        self.depth -= 1;
        next | top.others
    }

    // The value at p.
    #[tactic(auto, unfolding(crate::specs::Kinds::held_at, crate::specs::Kinds::range_in, crate::specs::Pass::value_at))]
    fn value_at(&mut self, k: Kind, chars: &[u32], p: usize, c: u32, known: Known) -> bool
        requires { (p < length chars.now) × (self.old.depth < PLACES) }
        ensures { Valued (held_at k (drop p chars.now)) c known self.old self.new result }
    {
        match k {
            Kind::Plain => (chars[p] == c) & known.prior,
            Kind::Covered => known.next,
            Kind::One => (c != SLASH) & known.prior,
            Kind::Star => known.next | ((c != SLASH) & known.old),
            Kind::Stars => known.next | known.old,
            Kind::Set => set::in_set(&chars[p + 1..], c) & known.prior,
            Kind::Range => known.hit,
            Kind::Escape => (code_behind(chars, p) == c) & known.prior,
            Kind::Ahead => (c == SLASH) & known.next,
            Kind::LoneCloses => (Brace::Closes.code() == c) & known.prior,
            Kind::LoneComma => (Brace::Comma.code() == c) & known.prior,
            Kind::LoneOpens => (Brace::Opens.code() == c) & known.prior,
            Kind::Closes => self.step(Brace::Closes, known.next),
            Kind::Comma => self.step(Brace::Comma, known.next),
            Kind::Opens => self.step(Brace::Opens, known.next),
        }
    }
}

// The character behind p, or 0.
// kept: the new form is no plainer: an escape has a character behind it wherever a name was read, and the definition
// takes 0 for the one that it hasn't elsewhere
fn code_behind(chars: &[u32], p: usize) -> u32
    requires { p < length chars.now }
    ensures { result ≡ get_or chars.now (p + 1) 0 }
{
    chars.get(p + 1).copied().unwrap_or(0)
}

// One character more of the path: v holds the values without it, and then with it. For the end of the path, base is
// true and c is 0. `braces` is room, which a caller clears once and not for each character.
pub fn pass(
    name: Name,
    c: u32,
    base: bool,
    hits: &[bool; PLACES],
    v: &mut [bool; PLACES],
    braces: &mut Braces,
)
    ensures { Passed (tokens_held name.entry) c base hits.now v.old v.new }
{
    braces.depth = 0;
    let mut next = base;
    let mut prior = v[name.kinds.len()];
    v[name.kinds.len()] = base;
    for p in (0..name.kinds.len()).rev() {
        let old = v[p];
        let known = Known {
            next,
            old,
            prior,
            hit: hits[p],
        };
        next = braces.value_at(name.kinds[p], name.chars, p, c, known);
        v[p] = next;
        prior = old;
    }
}
