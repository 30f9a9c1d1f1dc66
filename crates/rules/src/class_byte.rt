// The bytes that a line's classes are held as in lent memory.
use crate::Class;

pub const CODE: u8 = Class::Code as u8;

pub const STR: u8 = Class::Str as u8;

pub const LINE_COMMENT: u8 = Class::LineComment as u8;

pub const BLOCK_COMMENT: u8 = Class::BlockComment as u8;

pub const PREFAB: u8 = Class::Prefab as u8;
