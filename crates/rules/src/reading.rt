// Marks, and what a class, a mode and what is still open come to in one another.
ghost use Rattle.std.specs.Prelude.{◌≡◌};
ghost use Rattle.rules.specs.Scan.{long, one, mode_of, open_after};
ghost use Rattle.rules.specs.ClassBytes.{class_byte};

use crate::{Carry, Class, Mark, Mode};

impl Mark {
    // So many more characters are read with the first.
    pub fn long(more: usize, class: Class, mode: Mode) -> Mark
        ensures { result ≡ long more class mode }
    {
        Mark { more, class, mode }
    }

    // A character alone.
    pub fn one(class: Class, mode: Mode) -> Mark
        ensures { result ≡ one class mode }
    {
        Mark {
            more: 0,
            class,
            mode,
        }
    }
}

// The class byte.
impl From<Class> for u8 {
    ghost from_gives = { λ k n. n ≡ class_byte k };

    fn from(class: Class) -> u8 {
        class as u8
    }
}

// The mode at the start of the next line.
impl From<Carry> for Mode {
    ghost from_gives = { λ y m. m ≡ mode_of y };

    fn from(carry: Carry) -> Mode {
        match carry {
            Carry::Code => Mode::Code,
            Carry::Block(d) => Mode::Block(d),
            Carry::Prefab => Mode::Prefab,
        }
    }
}

// What is still open at a line's end: a string and a line comment end with it.
impl From<Mode> for Carry {
    ghost from_gives = { λ m y. y ≡ open_after m };

    fn from(mode: Mode) -> Carry {
        match mode {
            Mode::Block(d) => Carry::Block(d),
            Mode::Prefab => Carry::Prefab,
            Mode::Code | Mode::Quoted(_) | Mode::Interp(_, _) | Mode::Inner(_, _, _) | Mode::Line =>
                { Carry::Code }
        }
    }
}
