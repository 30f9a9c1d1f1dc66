// Where the regions of scratch start, in multiples of the source's length; the classes of the line stand at its front,
// and the stack of open brackets takes the rest. `specs/Scratch.antt` has the same.
pub const RESPACED: usize = 1;

pub const RECLASSED: usize = 3;

pub const STACK: usize = 5;
