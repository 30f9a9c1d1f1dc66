// The table of strengths that a host gives.
ghost use Rattle.std.specs.Prelude.{◌≡◌, length};
ghost use Rattle.rules.specs.Strengths.{table_length};

use rules::Strengths;

// A table of another length is refused before it is used.
pub fn read(bytes: &[u8]) -> Strengths
    ensures { length bytes.now ≡ table_length → result.table ≡ bytes.now }
{
    let mut table = [0u8; Strengths::LENGTH];
    buffer::put_line(&mut table, bytes);
    Strengths { table }
}
