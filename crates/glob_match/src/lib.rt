// Whether the name of a section matches a path. The path is read from its end, with a `/` before it.
#![tactic(auto)]

pub mod name;

ghost use Rattle.std.specs.Prelude.{◌≡◌, ◌∷◌, ◌≤◌, ◌<◌, length};
ghost use Rattle.std.specs.Bool.{MatchBool};
ghost use Rattle.utf8.specs.Unicode.{WellFormed, decode};
ghost use Rattle.config_rules.specs.Globs.{matches};
ghost use Rattle.glob_pass.specs.Held.{tokens_held};
ghost use Rattle.glob_name.specs.Read.{Spaced};
ghost use Rattle.glob_match.specs.Match.{range_kind, RangesNext, matches_at, first_place, NameMatches};

use glob_pass::code_points::SLASH;
use glob_pass::kinds::Kind;
use glob_pass::name::Name;
use glob_pass::{Braces, CHARS, PLACES, pass};
use ranges::State;
use utf8::{code_at, size_before};

fn is_range(k: Kind) -> bool
    ensures { MatchBool result (k ≡ range_kind) (k ≡ range_kind → ⊥) }
{
    k == Kind::Range
}

// What the ranges of a name say of one character more, from the values without it.
fn ranges_next(name: Name, state: &mut State, hits: &mut [bool; PLACES], v: &[bool; PLACES], c: u32)
    requires { Spaced name.chars.now name.kinds.now }
    ensures { RangesNext name.entry.kinds.now name.entry.chars.now v.now c state.old state.new hits.new }
{
    for p in 0..name.kinds.len() {
        if is_range(name.kinds[p]) {
            hits[p] = state.range_next(name.chars, p, v[p + 1], c);
        }
    }
}

// Whether a name matches the path with a `/` before it, or, where `levels` says so, what follows from some place of it
// on.
fn matches_at(name: Name, path: &[u8], levels: bool) -> bool
    requires { Spaced name.chars.now name.kinds.now × WellFormed path.now }
    ensures { result ≡ matches_at (tokens_held name.entry) levels (47 ∷ decode path.now) }
{
    let mut state = State::empty();
    let mut hits = [false; PLACES];
    let mut v = [false; PLACES];
    let mut braces = Braces::none();
    pass(name, 0, true, &hits, &mut v, &mut braces);
    let mut found = v[0];
    let mut e = path.len();
    // kept: the new form is no plainer: `chars` is of a `str`, which would be tested anew, and an iterator of our own
    // takes twenty lines, with what it gives and what is left, for the two that find a character here
    while 0 < e {
        e -= size_before(path, e);
        let c = code_at(path, e);
        ranges_next(name, &mut state, &mut hits, &v, c);
        pass(name, c, false, &hits, &mut v, &mut braces);
        found |= v[0];
    }
    ranges_next(name, &mut state, &mut hits, &v, SLASH);
    pass(name, SLASH, false, &hits, &mut v, &mut braces);
    if levels { found | v[0] } else { v[0] }
}

// The same of a name whose characters are given, with a slash before them; `slash` says whether it has that one itself.
fn matches_name(chars: &[u32], kinds: &mut [Kind], slash: bool, path: &[u8]) -> bool
    requires { (length kinds.old ≡ length chars.now) × (length chars.now < PLACES) × (0 < length chars.now) ×
        WellFormed path.now }
    ensures { NameMatches chars.now slash (decode path.now) result }
{
    glob_name::kinds_of(chars, kinds);
    let own = name::has_slash(kinds, chars);
    let held = Name { kinds, chars };
    matches_at(held, path, !(slash | own))
}

// Whether a name of at most 1,024 characters matches a path relative to the text's directory.
pub fn glob_matches(name: &[u8], path: &[u8]) -> bool
    requires { WellFormed name.now × WellFormed path.now × (length (decode name.now) ≤ 1024) }
    ensures { result ≡ matches (decode name.now) (decode path.now) }
{
    let mut chars = [0u32; CHARS];
    let mut kinds = [Kind::Plain; CHARS];
    chars[0] = SLASH;
    let slash = name::starts_with_slash(name);
    let k = first_place(slash);
    let n = name::decode_into(name, &mut chars, k);
    matches_name(&chars[..n], &mut kinds[..n], slash, path)
}

// Where the characters of a name start: behind the slash that is put before it, unless it has one.
#[tactic(auto, unfolding(rules::specs::Basics::choose, crate::specs::Match::first_place))]
fn first_place(slash: bool) -> usize
    ensures { (result ≡ first_place slash) × (result ≤ 1) }
{
    usize::from(!slash)
}
