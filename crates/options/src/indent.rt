// One level of indentation, by value.
ghost use Rattle.std.specs.Prelude.{◌≡◌, ◌≤◌, length};
ghost use Rattle.rules.specs.Options.{max_indent, spaces};

use buffer::pad::Pad;
use std::marker::Model;

// At most 64 bytes. Zeros follow them, so that two indents of the same bytes are the same.
#[derive(Clone, Copy)]
pub struct Indent {
    bytes: [u8; Indent::MAX],
    len: usize,
}

impl Model for Indent {
    ghost use Rattle.std.specs.Prelude.{ℕ, List};

    ghost Value = { List ℕ };

    ghost use Rattle.options.specs.Indents.{bytes_of, IsFilled, filled_with};

    ghost view = { bytes_of };

    ghost invariant = { IsFilled };

    ghost inverse = { filled_with };

    ghost inverse_ok = { λ a h. h };
}

impl Indent {
    pub const MAX: usize = 64;

    #[tactic(auto, using(crate::proofs::ListLaws::made_view, crate::proofs::ListLaws::made_filled))]
    pub fn new(bytes: &[u8]) -> Self
        requires { length bytes.now ≤ max_indent }
        ensures { result ≡ bytes.now }
    {
        let mut all = [0u8; Indent::MAX];
        buffer::put_line(&mut all, bytes);
        Self {
            bytes: all,
            len: bytes.len(),
        }
    }

    #[tactic(auto, using(crate::proofs::ListLaws::made_view, crate::proofs::ListLaws::made_filled, crate::proofs::ListLaws::length_spaces))]
    pub fn spaces(n: usize) -> Self
        requires { n ≤ max_indent }
        ensures { result ≡ spaces n }
    {
        let mut bytes = [0u8; Indent::MAX];
        let pad = Pad {
            indent: b" ",
            levels: n,
        };
        buffer::put_indent(&mut bytes, pad);
        Self { bytes, len: n }
    }

    pub fn len(&self) -> usize
        ensures value { result ≡ length self.now }
        ensures within { result ≤ max_indent }
    {
        self.len
    }

    pub fn as_bytes(&self) -> &[u8]
        ensures { result.now ≡ self.now }
    {
        &self.bytes[..self.len]
    }
}
