// The gaps between the characters of a text that are kept: neither white space nor a comma.
#![tactic(auto)]

ghost use Rattle.std.specs.Prelude.{◌<◌, length, drop};
ghost use Rattle.utf8.specs.Unicode.{WellFormed};
ghost use Rattle.gaps.specs.Gaps.{From, GapByte, UnkeptAt, GapEnd};

// Whether an ASCII byte is white space or a comma. It makes no branch, so that the bytes of a block are tested at once.
pub fn is_gap_byte(b: u8) -> bool
    ensures { GapByte b result }
{
    (b == b',') | (b == b' ') | ((9 <= b) & (b <= 13))
}

// How many bytes the character at i takes, if it is not kept.
pub fn unkept_at(s: &[u8], i: usize) -> Option<usize>
    requires { (i < length s.now) × WellFormed (drop i s.now) }
    ensures { UnkeptAt s.now i result }
{
    if s[i] == b',' {
        Some(1)
    } else {
        utf8::white_at(s, i)
    }
}

// Where the gap ends that starts at i: the place of the first kept character from i on, or the end.
pub fn gap_end(s: &[u8], i: usize) -> usize
    requires { From s.now i }
    ensures { GapEnd s.now i result }
{
    utf8::past_chars(s, i, &|a| unkept_at(s, a))
}
