// The tests that several calls share.
#![tactic(auto)]

ghost use Rattle.std.specs.Prelude.{◌≡◌, [], ◌∷◌, ◌≤◌, length};
ghost use Rattle.rules.specs.Refusals.{max_source, scratch_needed, tested, long_source, short_scratch, ill_formed};
ghost use Rattle.rules.specs.Refusals.{wrong_length, bits_set};

use rules::{MAX_SOURCE, Refusal, Strengths};

// Refusals 12 and 13.
pub fn test_strengths(table: &[u8]) -> Result<(), Refusal>
    ensures { result ≡ tested (wrong_length table.now ∷ bits_set table.now ∷ []) }
{
    if table.len() != Strengths::LENGTH {
        return Err(Refusal::StrengthsLength);
    }
    if table[10] % 16 != 0 {
        return Err(Refusal::StrengthsBits);
    }
    Ok(())
}

// Refusal 1.
pub fn test_length(source: &[u8]) -> Result<(), Refusal>
    ensures { result ≡ long_source source.now }
{
    if MAX_SOURCE < source.len() {
        return Err(Refusal::SourceTooLong);
    }
    Ok(())
}

// Refusals 3 and 4: the scratch has `each` bytes for each of the source's and 256, and the source is well-formed UTF-8.
pub fn test_bytes(source: &[u8], each: usize, scratch: usize) -> Result<(), Refusal>
    requires source_len_bound { length source.now ≤ max_source }
    requires each_bound { each ≤ 255 }
    ensures { result ≡ tested (short_scratch (scratch_needed each source.now) scratch ∷ ill_formed
        source.now ∷ []) }
{
    let n = source.len();
    let needed = each * n + 256;
    if scratch < needed {
        return Err(Refusal::ScratchShort(needed));
    }
    let prefix = utf8::well_formed_prefix(source);
    if prefix != n {
        return Err(Refusal::NotUtf8(prefix));
    }
    Ok(())
}
