// The line ending before a line.
ghost use Rattle.std.specs.Prelude.{◌≡◌, length};
ghost use Rattle.compare.specs.Rows.{ending_of};

use rules::LineEnding;

// The bytes of a line ending, if there is one.
#[tactic(auto, unfolding(rules::specs::Lines::as_str))]
pub fn ending_bytes(ending: Option<LineEnding>) -> &'static [u8]
    ensures { result.now ≡ ending_of ending }
{
    match ending {
        None => b"",
        Some(LineEnding::Lf) => b"\n",
        Some(LineEnding::Crlf) => b"\r\n",
    }
}

// How many these are.
pub fn ending_len(ending: Option<LineEnding>) -> usize
    ensures { result ≡ length (ending_of ending) }
{
    ending_bytes(ending).len()
}
