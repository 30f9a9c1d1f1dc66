// How an expression groups, for a host.
ghost use Rattle.std.specs.Prelude.{length};
ghost use Rattle.group_rules.specs.Answered.{GroupAnswered};

use group_rules::GroupAnswer;

// The text of the source's expression, every operation bracketed.
#[unsafe(no_mangle)]
pub extern "C" fn wirescript_group(
    source: &[u8],
    output: &mut [u8],
    scratch: &mut [u8],
) -> GroupAnswer
    ensures { GroupAnswered source.now (length output.old) (length
        scratch.old) result output.new scratch.new }
{
    group::group_call(source, output, scratch)
}
