// The name of a section in kinds, one for each of its characters: how it is read, and which of its braces stand for
// themselves.
#![tactic(auto)]

pub mod braces;
pub mod read;

ghost use Rattle.std.specs.Prelude.{◌≡◌, ◌<◌, length};
ghost use Rattle.config_rules.specs.Name.{tokens_of};
ghost use Rattle.glob_pass.specs.Kinds.{held};
ghost use Rattle.glob_name.specs.Read.{Spaced};

use glob_pass::PLACES;
use glob_pass::kinds::Kind;

// The kinds of a name.
// kept: the new form is no plainer: the kinds are still written here, and a `Name` lends them to be read alone
pub fn kinds_of(chars: &[u32], kinds: &mut [Kind])
    requires { (length kinds.old ≡ length chars.now) × (length chars.now < PLACES) }
    ensures { (length kinds.new ≡ length chars.now) ×
        (held kinds.new chars.now ≡ tokens_of chars.now) × Spaced chars.now
        kinds.new }
{
    read::raw_kinds(chars, kinds);
    braces::mark_right(kinds);
    braces::mark_left(kinds);
}
