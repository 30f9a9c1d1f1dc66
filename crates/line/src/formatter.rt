// The formatter's record, by value.
ghost use Rattle.std.specs.Prelude.{◌≡◌};
ghost use Rattle.line.specs.Holds.{initial, prev_of};

use brackets::Nesting;
use format::words::Declaration;
use rules::{Carry, Ignore};
use text::Written;
use utf8::ByteOffset;

// What later lines ask of a line: which declaration it is, and whether it ends in `}`.
#[derive(Clone, Copy, Default)]
pub struct Prev {
    pub declares: Option<Declaration>,
    pub brace: bool,
}

pub fn prev_of(line: &[u8]) -> Prev
    ensures { result ≡ prev_of line.now }
{
    Prev {
        declares: format::words::declaration_of(line),
        brace: format::else_line::ends_in_brace(line),
    }
}

// Of the open brackets it keeps how many there are and how many of them added a level, with the number of the line that
// is read; they lie in scratch. Of the previous line it keeps what later lines ask. carry stands before ignore, since
// the gap after the three bytes is then one byte, and is copied in a register.
#[derive(Clone, Copy)]
pub struct Formatter {
    pub text: Written,
    pub nesting: Nesting,
    pub blank: bool,
    pub prev: Prev,
    pub carry: Carry,
    pub ignore: Ignore,
    pub imports: usize,
    pub blanks: usize,
}

impl Formatter {
    pub fn new() -> Self
        ensures { result ≡ initial }
    {
        Self {
            text: Written::new(),
            nesting: Nesting::default(),
            blank: false,
            prev: Prev::default(),
            carry: Carry::Code,
            ignore: Ignore::Nothing,
            imports: 0,
            blanks: 0,
        }
    }

    // The same, field by field: the bytes between the fields are then never copied.
    // kept: tried without it: `blank lines` takes 0.38 ms in place of 0.29 (64 KiB), `declarations` 2.9 % more instructions
    pub fn remade(self) -> Self
        ensures { result ≡ self }
    {
        let t = self.text;
        let last = t.last;
        let at = t.at;
        let nesting = self.nesting;
        let prev = self.prev;
        let carry = self.carry;
        let ignore = self.ignore;
        let same = same_ignore(ignore);
        Self {
            text: Written {
                at: ByteOffset(at.0),
                cut: t.cut,
                full: t.full,
                below: t.below,
                alone: t.alone,
                last,
                settled: t.settled,
            },
            nesting,
            blank: self.blank,
            prev,
            carry,
            ignore: same,
            imports: self.imports,
            blanks: self.blanks,
        }
    }
}

fn same_ignore(ignore: Ignore) -> Ignore
    ensures { result ≡ ignore }
{
    match ignore {
        Ignore::Nothing => Ignore::Nothing,
        Ignore::NextLine => Ignore::NextLine,
        Ignore::Block(depth) => Ignore::Block(depth),
    }
}
