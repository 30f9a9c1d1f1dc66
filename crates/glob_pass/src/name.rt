// A name as it is held: a kind and a character for each place.
ghost use Rattle.std.specs.Prelude.{◌≡◌, ◌<◌, length};

use crate::kinds::Kind;

#[derive(Clone, Copy)]
pub struct Name<'a> {
    pub kinds: &'a [Kind],
    pub chars: &'a [u32],
    pub ghost same: { length kinds.now ≡ length chars.now },
    pub ghost fits: { length chars.now < 1026 },
}
