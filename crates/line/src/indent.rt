// The indent of one level.
ghost use Rattle.line.specs.Holds.{ValidIndent};

// Its bytes: spaces and tabs, and few.
#[derive(Clone, Copy)]
pub struct LineIndent<'a> {
    pub bytes: &'a [u8],
    pub ghost valid: { ValidIndent bytes.now },
}
