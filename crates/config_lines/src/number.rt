// Whole numbers.
ghost use Rattle.config_lines.specs.Whole.{WholeOf};

// The number that a value is, if it is a whole one of at most 4,294,967,295.
pub fn whole_of(v: &[u8]) -> Option<usize>
    ensures { WholeOf v.now result }
{
    if v.is_empty() {
        return None;
    }
    let mut n: usize = 0;
    for c in v {
        if !c.is_ascii_digit() {
            return None;
        }
        n = n * 10 + (*c - b'0') as usize;
        if 4_294_967_295 < n {
            return None;
        }
    }
    Some(n)
}
