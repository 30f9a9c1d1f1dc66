// The marker: a line comment whose text is exactly `fmt-ignore`.
ghost use Rattle.std.specs.Prelude.{◌≡◌, not};
ghost use Rattle.utf8.specs.Unicode.{decode, WellFormed, trim, trim_start};
ghost use Rattle.rules.specs.Basics.{codes, same, is_empty};
ghost use Rattle.rules.specs.Words.{is_marker_text};

use basics::starts_with;

// Trimmed, the text is the marker's word.
fn is_marker_word(text: &[u8]) -> bool
    requires { WellFormed text.now }
    ensures { result ≡ same (trim (decode text.now)) (codes "fmt-ignore") }
{
    let t = &text[utf8::trim_start(text)..];
    t[..utf8::trim_end(t)] == b"fmt-ignore"[..]
}

// Of a line's `//` comment, or of nothing where it has none. A third slash would be part of the word, so `///` is no
// marker.
pub fn is_marker(comment: &[u8]) -> bool
    requires { WellFormed comment.now }
    ensures { result ≡ is_marker_text (decode comment.now) }
{
    starts_with(comment, b"//") && is_marker_word(&comment[2..])
}

// Anything but white space stands before the comment.
pub fn has_code(code: &[u8]) -> bool
    requires { WellFormed code.now }
    ensures { result ≡ not (is_empty (trim_start (decode code.now))) }
{
    utf8::trim_start(code) < code.len()
}
