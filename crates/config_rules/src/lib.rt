// The types that the code and the definitions of request C-12 share: our .editorconfig files.
#![tactic(auto)]

pub mod numbers;

ghost use Rattle.std.specs.Prelude.{◌≡◌};
ghost use Rattle.config_rules.specs.Call.{refusal_number};

// Between brackets, before a character: the one before it, where it may start a range; whether a `-` follows that one;
// an escape.
#[derive(Clone, Copy)]
pub struct Named {
    pub low: Option<u32>,
    pub dash: bool,
    pub esc: bool,
}

// Why the files aren't read: a section's name or a text is too long, or bytes are no UTF-8. Of all texts' refusals the
// largest is told.
#[derive(Clone, Copy, PartialEq, Eq, PartialOrd, Ord, Debug)]
pub enum ConfigRefusal {
    LongName,
    NotUtf8,
    LongText,
}

impl ConfigRefusal {
    // The number that a host is told.
    // kept: the new form is no plainer: the variants stand in the order by which one of several is told, so these
    // numbers can't be theirs
    pub fn number(self) -> u64
        ensures { result ≡ refusal_number self }
    {
        match self {
            ConfigRefusal::LongName => 8,
            ConfigRefusal::NotUtf8 => 4,
            ConfigRefusal::LongText => 7,
        }
    }
}

// What reading comes to, in numbers for a host: those that `wirescript_editorconfig` takes. Where a value is unset, the
// tab width or off, its number is 0.
#[repr(C)]
#[derive(Clone, Copy, Default)]
pub struct ConfigAnswer {
    pub refusal: u64,
    pub place: u64,
    pub style: u64,
    pub size_kind: u64,
    pub size: u64,
    pub tab_set: u64,
    pub tab: u64,
    pub max_kind: u64,
    pub max: u64,
    pub ending: u64,
    pub newline: u64,
}
