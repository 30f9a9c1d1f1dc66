// The types that the code and the definitions of document 01 share.
#![tactic(auto)]

pub mod class_byte;
mod reading;

ghost use Rattle.std.specs.Prelude.{◌≡◌};
ghost use Rattle.rules.specs.Refusals.{number_of, place_of};
ghost use Rattle.rules.specs.Call.{answer_of};
ghost use Rattle.rules.specs.TextKind.{kind_number, kind_answer};

// The bytes that a source may have.
pub const MAX_SOURCE: usize = 1048576;

// What a character of a line is part of.
#[derive(Clone, Copy, PartialEq, Eq, Debug)]
pub enum Class {
    Code,
    Str,
    LineComment,
    BlockComment,
    Prefab,
}

// What is still open at the end of a line; a block comment with its depth.
#[derive(Clone, Copy, PartialEq, Eq, Debug)]
pub enum Carry {
    Code,
    Block(u32),
    Prefab,
}

// Where in a line a character stands. The bools say which quote ends a string: `"` if true, else `'`.
// Interp and Inner are inside `${..}`, at a depth of braces; Inner is a string in it.
// kept: the bool, which `quote` and `at_quote` of the definitions take: an enum of the two quotes would be turned into
// it wherever a contract names them
#[derive(Clone, Copy, PartialEq, Eq, Debug)]
pub enum Mode {
    Code,
    Quoted(bool),
    Interp(bool, u32),
    Inner(bool, u32, bool),
    Line,
    Block(u32),
    Prefab,
}

// Characters that are read together: how many are left, their class, and the mode after them.
#[derive(Clone, Copy)]
pub struct Mark {
    pub more: usize,
    pub class: Class,
    pub mode: Mode,
}

// What spacing has just read, in code: a backslash, a comma, a space, or anything else.
// kept: no `Option`: `Nothing` says that any other byte was read, it is no value that is missing
#[derive(Clone, Copy, PartialEq, Eq, Debug)]
pub enum Gap {
    Nothing,
    Escape,
    Comma,
    Space,
}

// What a marker protects: nothing, the next line that is not blank, or a block up to and with the first line that
// leaves so many brackets open or fewer.
// kept: no `Option`: the three are states that lines lead to from one another, and none is a value that is missing
#[derive(Clone, Copy, PartialEq, Eq, Debug)]
pub enum Ignore {
    Nothing,
    NextLine,
    Block(usize),
}

#[derive(Clone, Copy, PartialEq, Eq, Debug)]
pub enum LineEnding {
    Lf,
    Crlf,
}

impl LineEnding {
    pub const LF: LineEnding = LineEnding::Lf;

    pub const CRLF: LineEnding = LineEnding::Crlf;
}

// Whether the text ends in a line ending: if the source does, always, or never.
#[derive(Clone, Copy, PartialEq, Eq, Debug)]
pub enum FinalNewline {
    AsSource,
    Always,
    Never,
}

// The strengths of the operators, 4 bits for each, the most significant of a byte first, in the order of document 01's
// tightness list; then four zero bits. 0 means never break there.
#[derive(Clone, Copy)]
pub struct Strengths {
    pub table: [u8; Strengths::LENGTH],
}

impl Strengths {
    pub const LENGTH: usize = 11;

    // Document 01's own.
    pub const BUILT_IN: Strengths = Strengths {
        table: [
            0x11, 0x23, 0x45, 0x66, 0x77, 0x77, 0x88, 0x9A, 0xAB, 0xBB, 0xC0,
        ],
    };
}

// Options as a host gives them in numbers, beside the bytes of its indent. width_set: 0 no print width, 1 the width
// given. line_ending: 0 kept, 1 LF, 2 CRLF. final_newline: 0 as the source, 1 always, 2 never. ruler_tab: 0 a tab is
// one column, else how far apart the ruler's tab stops are.
#[derive(Clone, Copy)]
pub struct OptionNumbers {
    pub width_set: u64,
    pub width: u64,
    pub line_ending: u64,
    pub final_newline: u64,
    pub ruler_tab: u64,
}

impl OptionNumbers {
    pub const DEFAULT_PRINT_WIDTH: u64 = 100;

    pub const DEFAULTS: OptionNumbers = OptionNumbers {
        width_set: 1,
        width: OptionNumbers::DEFAULT_PRINT_WIDTH,
        line_ending: 0,
        final_newline: 1,
        ruler_tab: 0,
    };
}

// The refusals, with what their places need.
#[derive(Clone, Copy, PartialEq, Eq, Debug)]
pub enum Refusal {
    SourceTooLong,
    BadOption,
    ScratchShort(usize),
    NotUtf8(usize),
    OutputShort(usize),
    NoPlace,
    PlacesUnordered,
    KindsShort,
    RulerTooWide,
    StrengthsLength,
    StrengthsBits,
    ListShort(usize),
}

impl Refusal {
    // The number that a host is told.
    pub fn number(self) -> u64
        ensures { result ≡ number_of self }
    {
        match self {
            Refusal::SourceTooLong => 1,
            Refusal::BadOption => 2,
            Refusal::ScratchShort(_) => 3,
            Refusal::NotUtf8(_) => 4,
            Refusal::OutputShort(_) => 5,
            Refusal::NoPlace => 6,
            Refusal::PlacesUnordered => 9,
            Refusal::KindsShort => 10,
            Refusal::RulerTooWide => 11,
            Refusal::StrengthsLength => 12,
            Refusal::StrengthsBits => 13,
            Refusal::ListShort(_) => 16,
        }
    }

    // The place that a host is told; one that isn't named is 0.
    pub fn place(self) -> u64
        ensures { result ≡ place_of self }
    {
        match self {
            Refusal::SourceTooLong => MAX_SOURCE as u64,
            Refusal::ScratchShort(needed) => needed as u64,
            Refusal::NotUtf8(prefix) => prefix as u64,
            Refusal::OutputShort(needed) => needed as u64,
            Refusal::ListShort(needed) => needed as u64,
            Refusal::BadOption
            | Refusal::NoPlace
            | Refusal::PlacesUnordered
            | Refusal::KindsShort
            | Refusal::RulerTooWide
            | Refusal::StrengthsLength
            | Refusal::StrengthsBits => 0,
        }
    }
}

// What a formatting call gives beside the text in its output: the text's length, and three counts.
#[derive(Clone, Copy, PartialEq, Eq, Debug)]
pub struct Formatted {
    pub length: usize,
    pub imports_split: usize,
    pub blank_names: usize,
    pub open_brackets: usize,
}

// What a formatting call comes to, in numbers for a host.
#[repr(C)]
#[derive(Clone, Copy)]
pub struct Answer {
    pub refusal: u64,
    pub place: u64,
    pub length: u64,
    pub imports_split: u64,
    pub blank_names: u64,
    pub open_brackets: u64,
}

impl From<Result<Formatted, Refusal>> for Answer {
    ghost from_gives = { λ o a. a ≡ answer_of o };

    fn from(outcome: Result<Formatted, Refusal>) -> Answer {
        match outcome {
            Ok(text) => Answer {
                refusal: 0,
                place: 0,
                length: text.length as u64,
                imports_split: text.imports_split as u64,
                blank_names: text.blank_names as u64,
                open_brackets: text.open_brackets as u64,
            },
            Err(why) => Answer {
                refusal: why.number(),
                place: why.place(),
                length: 0,
                imports_split: 0,
                blank_names: 0,
                open_brackets: 0,
            },
        }
    }
}

// What an editor is told of a place.
#[derive(Clone, Copy, PartialEq, Eq, Debug)]
pub enum TextKind {
    Code,
    Str,
    Comment,
}

impl TextKind {
    // The number that a host is told.
    pub fn number(self) -> u8
        ensures { result ≡ kind_number self }
    {
        self as u8
    }
}

// What asking for a text kind comes to, in numbers for a host.
#[repr(C)]
#[derive(Clone, Copy)]
pub struct Kind {
    pub refusal: u64,
    pub place: u64,
    pub kind: u64,
}

impl From<Result<TextKind, Refusal>> for Kind {
    ghost from_gives = { λ o k. k ≡ kind_answer o };

    fn from(outcome: Result<TextKind, Refusal>) -> Kind {
        match outcome {
            Ok(kind) => Kind {
                refusal: 0,
                place: 0,
                kind: kind.number() as u64,
            },
            Err(why) => Kind {
                refusal: why.number(),
                place: why.place(),
                kind: 0,
            },
        }
    }
}

#[derive(Clone, Copy, PartialEq, Eq, Debug)]
pub enum IndentStyle {
    Tabs,
    Spaces,
}

// kept: no `Option`: `UseTabWidth` says where the size is to be taken from, it is no value that is missing
#[derive(Clone, Copy, PartialEq, Eq, Debug)]
pub enum IndentSize {
    UseTabWidth,
    Value(usize),
}

// kept: an `Option` is no plainer, since what holds it may be unset: `off` would be `Some(None)`, unset `None`, and four
// crates would have to keep these apart without a name
#[derive(Clone, Copy, PartialEq, Eq, Debug)]
pub enum MaxLineLen {
    Off,
    Value(usize),
}

#[derive(Clone, Copy, PartialEq, Eq, Debug)]
pub enum ConfigEnding {
    Lf,
    CrLf,
    Cr,
}

// The values of .editorconfig, resolved; none where a value is unset.
#[derive(Clone, Copy, Default)]
pub struct Resolved {
    pub style: Option<IndentStyle>,
    pub size: Option<IndentSize>,
    pub tab: Option<usize>,
    pub max: Option<MaxLineLen>,
    pub ending: Option<ConfigEnding>,
    pub newline: Option<bool>,
}
