// Line endings.
ghost use Rattle.std.specs.Prelude.{◌≡◌, ◌≤◌, length};
ghost use Rattle.rules.specs.Lines.{dominant_in, ends_in_lf};
ghost use Rattle.options.specs.Endings.{Counted};

use rules::LineEnding;

// The line feeds of a block, those after a carriage return among them, and the block's last byte.
#[derive(Clone, Copy)]
pub struct Endings {
    pub lf: u8,
    pub crlf: u8,
    pub last: u8,
}

// Those of a block, with `last` before it. Counters of a byte let 16 bytes be counted at a time, and hold those of 255.
fn count_endings(block: &[u8], last: u8) -> Endings
    requires { length block.now ≤ 255 }
    ensures { Counted block.now last result.lf result.crlf result.last }
{
    let mut lf: u8 = 0;
    let mut crlf: u8 = 0;
    let mut before = last;
    for b in block {
        if *b == b'\n' {
            lf += 1;
            if before == b'\r' {
                crlf += 1;
            }
        }
        before = *b;
    }
    Endings {
        lf,
        crlf,
        last: before,
    }
}

// The ending most of the source's lines have: LF on a tie or with none.
pub fn dominant_in(source: &[u8]) -> LineEnding
    ensures { result ≡ dominant_in source.now }
{
    let mut lf: usize = 0;
    let mut crlf: usize = 0;
    let mut last: u8 = 0;
    for block in source.chunks(240) {
        let e = count_endings(block, last);
        lf += e.lf as usize;
        crlf += e.crlf as usize;
        last = e.last;
    }
    if lf - crlf < crlf {
        LineEnding::Crlf
    } else {
        LineEnding::Lf
    }
}

#[tactic(auto, using(crate::proofs::EndingLaws::ends_empty, crate::proofs::EndingLaws::ends_last))]
pub fn ends_in_lf(source: &[u8]) -> bool
    ensures { result ≡ ends_in_lf source.now }
{
    source.last() == Some(&b'\n')
}
