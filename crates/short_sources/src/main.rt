// Formats every short source in order with the default options, and prints for each the text's length in bytes, LF and
// the text. Standard input may hold a digit from 0 to 6, the greatest length of a source; anything else means 6.
#![tactic(auto)]

use crate::page::{fill, greatest};
use std::io;

mod page;

fn main(rt: HostRuntime) -> io::Result<()> {
    let mut input = [0u8; 3];
    let n = input::read_full(&mut rt.reader(), &mut input)?;
    let most = greatest(&input[..n]);
    let mut page = [0u8; 65536];
    let mut next = Some(short_texts::start());
    // kept: a page ends where the next begins, so no iterator of the library gives them
    while let Some(p) = next {
        let filled = fill(&mut page, p, most);
        rt.write_all(&page[..filled.size])?;
        next = filled.next;
    }
    Ok(())
}
