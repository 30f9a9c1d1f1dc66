// What formatting asks of the options beside the indent, by value.
use rules::{LineEnding, Strengths};

// The print width, the ruler tab, the ending that the text's lines get, and the strengths of the operators.
#[derive(Clone, Copy)]
pub struct Style {
    pub width: Option<usize>,
    pub ruler: u8,
    pub ending: LineEnding,
    pub strengths: Strengths,
}

// What every line is formatted with: the style, and the unit of the scratch's regions, the source's length.
#[derive(Clone, Copy)]
pub struct Setup {
    pub style: Style,
    pub unit: usize,
}
