// Numbers in decimal digits, written into lent buffers.
#![tactic(auto)]

ghost use Rattle.std.specs.Prelude.{◌+◌, ◌≤◌, ◌<◌, ◌^◌, length};
ghost use Rattle.decimal.specs.Decimal.{digits, Spelled, DecimalPut};

// Writes n's digits so that they end where room ends, and gives the place of the first.
fn spell(room: &mut [u8], n: u64) -> usize
    requires { length (digits n) ≤ length room.old }
    ensures { Spelled room.new n result }
{
    let mut i = room.len();
    let mut rest = n;
    // kept: a range is no plainer, since the digits end before the room may: a `for` would need a value for its end
    while 10 <= rest {
        i -= 1;
        room[i] = b'0' + (rest % 10) as u8;
        rest /= 10;
    }
    i -= 1;
    room[i] = b'0' + rest as u8;
    i
}

// Writes n in decimal from the place at on, which may lie past the end, and gives the next place.
pub fn put_decimal(out: &mut [u8], at: usize, n: u64) -> usize
    requires { at + 20 < 2 ^ 64 }
    ensures { DecimalPut out.old out.new at n result }
{
    let mut room = [0u8; 20];
    let from = spell(&mut room, n);
    buffer::append(out, at, &room[from..])
}
