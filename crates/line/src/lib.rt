// format.rs, one line: the formatter's record before and after it. The bracket stack and the line's classes lie in
// scratch.
#![tactic(auto)]

pub mod formatter;
pub mod indent;
pub mod kept;
pub mod lone;
pub mod scratch;
pub mod style;
