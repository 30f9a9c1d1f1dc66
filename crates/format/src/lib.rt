// Leaves of the line step, a module for each of document 01's stations: words, `else`, the marker. Spacing and brackets
// are crates of their own.
// kept: `WellFormed` of a line stays a clause: `place` hands over respaced lines too, which stand in scratch as bytes
// (`line::kept`), and `marker` cuts its line at a place of which a `&str` would owe that no character is cut
#![tactic(auto)]

pub mod else_line;
pub mod marker;
pub mod words;
