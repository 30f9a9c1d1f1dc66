// Tests of characters. Where 16 bytes are ASCII, each is a character, and they are tested at once.
ghost use Rattle.std.specs.Prelude.{◌<◌, ◌≤◌, ℕ, Bool, length, drop};
ghost use Rattle.utf8.specs.Unicode.{WellFormed};
ghost use Rattle.rules.specs.Basics.{is};
ghost use Rattle.rules.specs.Demand3.{is_kept};
ghost use Rattle.caret.specs.Blocks.{AsciiTest, Tested, BlockAt};

// A test of a character.
pub trait CharTest {
    ghost meets: { ℕ → Bool };

    // Whether an ASCII byte passes. It makes no branch.
    fn passes(b: u8) -> bool
        ensures { AsciiTest meets b result };

    // How many bytes the character at i takes, and whether it passes.
    fn test_at(s: &[u8], i: usize) -> (usize, bool)
        requires { (i < length s.now) × WellFormed (drop i s.now) }
        ensures { Tested meets s.now i result.0 result.1 };
}

// A character that is kept: neither white space nor a comma.
pub struct Kept;

impl CharTest for Kept {
    ghost meets = { is_kept };

    fn passes(b: u8) -> bool {
        !gaps::is_gap_byte(b)
    }

    fn test_at(s: &[u8], i: usize) -> (usize, bool) {
        match gaps::unkept_at(s, i) {
            Some(n) => (n, false),
            None => (utf8::size_at(s, i), true),
        }
    }
}

pub struct Lf;

impl CharTest for Lf {
    ghost meets = { is "\n" };

    fn passes(b: u8) -> bool {
        b == b'\n'
    }

    fn test_at(s: &[u8], i: usize) -> (usize, bool) {
        (utf8::size_at(s, i), s[i] == b'\n')
    }
}

// How many of the 16 bytes from `at` on pass the test, if they are there and are ASCII.
pub fn count_block<T: CharTest>(s: &[u8], at: usize) -> Option<u8>
    requires { at ≤ length s.now }
    ensures { BlockAt T.meets s.now at result }
{
    if s.len() - at < 16 {
        return None;
    }
    let mut high = false;
    let mut n: u8 = 0;
    for k in 0..16 {
        let b = s[at + k];
        high |= 127 < b;
        n += u8::from(T::passes(b));
    }
    (!high).then_some(n)
}
