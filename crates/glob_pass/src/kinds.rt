// What stands at a place of a name, as it is held beside the place's character.
ghost use Rattle.std.specs.Prelude.{◌≡◌};
ghost use Rattle.glob_pass.specs.Kinds.{code_of};

use crate::code_points::{CLOSE_BRACE, COMMA, OPEN_BRACE};

// A brace or a comma.
#[derive(Clone, Copy, PartialEq, Eq, Debug)]
pub enum Brace {
    Closes,
    Comma,
    Opens,
}

// What matches by itself: a character, the rest of a token of several characters, `?`, `*`, `**`, a set, a range, a
// backslash before a character, the first slash of a `/**/`, and a brace or a comma that stands for itself. Or a brace
// or a comma between alternatives.
// kept: one flat enum: with one of the items in it, and a `Brace` in both, a kind takes three bytes for one, and each
// place of a pass two tests for one
#[derive(Clone, Copy, PartialEq, Eq, Debug)]
pub enum Kind {
    Plain,
    Covered,
    One,
    Star,
    Stars,
    Set,
    Range,
    Escape,
    Ahead,
    LoneCloses,
    LoneComma,
    LoneOpens,
    Closes,
    Comma,
    Opens,
}

impl Brace {
    pub fn code(self) -> u32
        ensures { result ≡ code_of self }
    {
        match self {
            Brace::Closes => CLOSE_BRACE,
            Brace::Comma => COMMA,
            Brace::Opens => OPEN_BRACE,
        }
    }
}
