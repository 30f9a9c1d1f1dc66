// Braces and commas that stand for themselves, found with the open braces on each side.
ghost use Rattle.std.specs.Prelude.{◌≡◌, [], ◌<◌, length};
ghost use Rattle.glob_name.specs.Braces.{right_event, left_event, marked, Happened, mark_right, mark_left};

use glob_pass::PLACES;
use glob_pass::kinds::{Brace, Kind};

// The braces that are open on one side of a place: the first `depth` of `commas` say of each, the innermost last,
// whether it has a comma there.
// kept: fixed memory: there is no heap, and a name has at most 1,024 characters
#[derive(Clone, Copy)]
struct Open {
    commas: [bool; PLACES],
    depth: usize,
}

// What a kind does to the braces that are open to its right, which see it from the other side.
fn right_event(k: Kind) -> Option<Brace>
    ensures { result ≡ right_event k }
{
    match k {
        Kind::Closes => Some(Brace::Opens),
        Kind::Comma => Some(Brace::Comma),
        Kind::Opens => Some(Brace::Closes),
        _ => None,
    }
}

// The same to its left.
fn left_event(k: Kind) -> Option<Brace>
    ensures { result ≡ left_event k }
{
    match k {
        Kind::Closes => Some(Brace::Closes),
        Kind::Comma | Kind::LoneComma => Some(Brace::Comma),
        Kind::Opens | Kind::LoneOpens => Some(Brace::Opens),
        _ => None,
    }
}

// A kind that stands for itself where it is lone.
#[tactic(auto, unfolding(rules::specs::Basics::choose, crate::specs::Braces::marked))]
fn marked(k: Kind, lone: bool) -> Kind
    ensures { result ≡ marked k lone }
{
    match k {
        Kind::Closes if lone => Kind::LoneCloses,
        Kind::Comma if lone => Kind::LoneComma,
        Kind::Opens if lone => Kind::LoneOpens,
        _ => k,
    }
}

impl Open {
    // No brace.
    fn none() -> Open
        ensures { result.depth ≡ 0 }
    {
        Open {
            commas: [false; PLACES],
            depth: 0,
        }
    }

    // An event, and whether its brace or comma is lone.
    fn happen(&mut self, e: Option<Brace>) -> bool
        requires { self.old.depth < PLACES }
        ensures { Happened e self.old self.new result }
    {
        let Some(brace) = e else {
            return false;
        };
        if brace == Brace::Opens {
            self.commas[self.depth] = false;
            self.depth += 1;
            return false;
        }
        if self.depth == 0 {
            return true;
        }
        if brace == Brace::Comma {
            self.commas[self.depth - 1] = true;
            return false;
        }
        self.depth -= 1;
        !self.commas[self.depth]
    }
}

// From the right: opening braces and commas.
// kept: the new form is no plainer: one function for both sides takes the order of the places and the event as closures
pub fn mark_right(kinds: &mut [Kind])
    requires { length kinds.old < PLACES }
    ensures { kinds.new ≡ mark_right kinds.old }
{
    let mut open = Open::none();
    // kept: `iter_mut().rev()` is an adapter, behind which nothing is known of what the loop wrote
    for p in (0..kinds.len()).rev() {
        let k = kinds[p];
        let lone = open.happen(right_event(k));
        kinds[p] = marked(k, lone);
    }
}

// From the left: closing braces and commas.
pub fn mark_left(kinds: &mut [Kind])
    requires { length kinds.old < PLACES }
    ensures { kinds.new ≡ mark_left [] kinds.old }
{
    let mut open = Open::none();
    for k in kinds.iter_mut() {
        let lone = open.happen(left_event(*k));
        *k = marked(*k, lone);
    }
}
