// Formats every source of a stored list and compares the texts with the Rust's answers, which the list holds.
#![tactic(auto)]

ghost use Rattle.std.specs.Prelude.{◌≡◌, length};

use std::io;

// Room for the whole list: 1,048,576 zeros.
fn room() -> [u8; 1048576]
    ensures { 1048576 ≡ length result }
{
    [0; 1048576]
}

fn main(rt: HostRuntime) -> io::Result<()> {
    let mut list = room();
    let mut output = [0u8; 65536];
    let mut scratch = [0u8; 65536];
    let n = input::read_full(&mut rt.reader(), &mut list)?;
    let end = replay_run::replay(&rt, &list[..n], &mut output, &mut scratch);
    println!(rt; "{} sources, {} differ", end.sources, end.differ)
}
