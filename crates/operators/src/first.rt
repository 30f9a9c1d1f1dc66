// Whether an operator can start in a line at all: most bytes start none.
ghost use Rattle.std.specs.Prelude.{◌≡◌};
ghost use Rattle.operators.specs.First.{any_starts};
ghost use Rattle.rules.specs.Operators.{starts_operator};

// The first bytes of the operators, without a branch: equalities alone, so that 16 bytes are tested at once.
pub fn starts_operator(c: u8) -> bool
    ensures { result ≡ starts_operator c }
{
    (c == b'!')
        | (c == b'%')
        | (c == b'&')
        | (c == b'*')
        | (c == b'+')
        | (c == b'-')
        | (c == b'.')
        | (c == b'/')
        | (c == b'<')
        | (c == b'=')
        | (c == b'>')
        | (c == b'^')
        | (c == b'|')
}

pub fn has_operator(line: &[u8]) -> bool
    ensures { result ≡ any_starts line.now }
{
    let n = line.len();
    blocks::first_by_blocks::<16, _>(0, n, &|i| starts_operator(line[i])) < n
}
