// A name as it stands in a text: its characters, with a `/` before them, and whether it has a slash of its own.
ghost use Rattle.std.specs.Prelude.{◌≡◌, ◌+◌, ◌≤◌, ◌<◌, length, drop};
ghost use Rattle.utf8.specs.Unicode.{WellFormed, decode};
ghost use Rattle.rules.specs.Basics.{is, first_is};
ghost use Rattle.config_rules.specs.Globs.{is_slash, has_slash};
ghost use Rattle.glob_pass.specs.Kinds.{held_at, held};
ghost use Rattle.glob_match.specs.Match.{Decoded};

use glob_pass::CHARS;
use glob_pass::code_points::SLASH;
use glob_pass::kinds::Kind;
use utf8::{code_at, size_at};

// Whether a name starts with a slash.
pub fn starts_with_slash(name: &[u8]) -> bool
    requires { WellFormed name.now }
    ensures { result ≡ first_is (is "/") (decode name.now) }
{
    matches!(name, [b'/', ..])
}

// The characters of a name, from the place k on.
pub fn decode_into(name: &[u8], chars: &mut [u32; CHARS], k: usize) -> usize
    requires { WellFormed name.now × (k + length (decode name.now) ≤ CHARS) }
    ensures { Decoded name.now k chars.old chars.new result }
{
    let mut n = k;
    let mut i = 0;
    // kept: the new form is no plainer: `chars` is of a `str`, which would be tested anew, and an iterator of our own
    // takes twenty lines, with what it gives and what is left, for the two that find a character here
    while i < name.len() {
        let m = size_at(name, i);
        chars[n] = code_at(name, i);
        i += m;
        n += 1;
    }
    n
}

// Whether the token at i is a slash.
#[tactic(auto, unfolding(glob_pass::specs::Kinds::held_at, config_rules::specs::Globs::is_slash))]
fn slash_at(k: Kind, chars: &[u32], i: usize) -> bool
    requires { i < length chars.now }
    ensures { result ≡ is_slash (held_at k (drop i chars.now)) }
{
    match k {
        Kind::Plain => chars[i] == SLASH,
        Kind::Escape => i + 1 < chars.len() && chars[i + 1] == SLASH,
        Kind::Ahead => true,
        _ => false,
    }
}

// Whether one of the tokens behind the first is a slash.
// kept: the new form is no plainer: a `Name` has fewer than `PLACES` characters, which this may not ask of callers, and
// a struct of the other fact alone would serve no other function
pub fn has_slash(kinds: &[Kind], chars: &[u32]) -> bool
    requires { (length kinds.now ≡ length chars.now) × (0 < length chars.now) }
    ensures { result ≡ has_slash (drop 1 (held kinds.now chars.now)) }
{
    (1..kinds.len()).any(|i| slash_at(kinds[i], chars, i))
}
