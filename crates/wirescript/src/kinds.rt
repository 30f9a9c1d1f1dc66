// The text kinds of a list of places.
ghost use Rattle.std.specs.Prelude.{length};
ghost use Rattle.text_kinds.specs.KindsAnswered.{KindsAnswered};

use text_kinds::Kinds;

// A list holds line and column of each place in turn, in ascending order; kinds gets a byte for each place: 0 code, 1 a
// string, 2 a comment.
#[unsafe(no_mangle)]
pub extern "C" fn wirescript_text_kinds(
    source: &[u8],
    places: &[u64],
    kinds: &mut [u8],
    scratch: &mut [u8],
) -> Kinds
    ensures { KindsAnswered source.now places.now (length kinds.old)
        scratch.old scratch.new result kinds.new }
{
    let answer = text_kinds::answer(source, places, kinds, scratch);
    buffer::zero(scratch);
    answer
}
