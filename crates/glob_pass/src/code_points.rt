// The characters that have a meaning in a name, as the numbers that names and paths are held in.
// kept: no `char`: public functions take any `u32` as a character, and a narrower type would ask more of their callers

pub const EXCLAMATION: u32 = '!' as u32;

pub const STAR: u32 = '*' as u32;

pub const COMMA: u32 = ',' as u32;

pub const MINUS: u32 = '-' as u32;

pub const DOT: u32 = '.' as u32;

pub const SLASH: u32 = '/' as u32;

pub const ZERO: u32 = '0' as u32;

pub const NINE: u32 = '9' as u32;

pub const QUESTION: u32 = '?' as u32;

pub const OPEN_BRACKET: u32 = '[' as u32;

pub const BACKSLASH: u32 = '\\' as u32;

pub const CLOSE_BRACKET: u32 = ']' as u32;

pub const OPEN_BRACE: u32 = '{' as u32;

pub const CLOSE_BRACE: u32 = '}' as u32;
