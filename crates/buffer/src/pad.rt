// What stands before a line.
ghost use Rattle.std.specs.Prelude.{◌≡◌, ◌<◌, ◌^◌, length};
ghost use Rattle.buffer.specs.Repeat.{times};

// The indent, levels times over.
#[derive(Clone, Copy)]
pub struct Pad<'a> {
    pub indent: &'a [u8],
    pub levels: usize,
    pub ghost fits: { length (times levels indent.now) < 2 ^ 64 },
}

impl Pad<'_> {
    ghost use Rattle.buffer.specs.Pad.{spelled};

    // How many bytes that is.
    #[tactic(auto, using(crate::proofs::RepeatLaws::length_times))]
    pub fn len(self) -> usize
        ensures { result ≡ length (spelled self.entry) }
    {
        self.levels * self.indent.len()
    }
}
