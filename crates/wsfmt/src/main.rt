// Formats standard input, up to 4,096 bytes, with the default options.
#![tactic(auto)]

use std::io;
use wsfmt_run::{MAX_INPUT, MAX_TEXT};

fn main(rt: HostRuntime) -> io::Result<()> {
    // one byte more than it takes tells that the input is too long
    let mut source = [0u8; MAX_INPUT + 1];
    let n = input::read_full(&mut rt.reader(), &mut source)?;
    let mut output = [0u8; MAX_TEXT];
    let m = wsfmt_run::print(&source[..n], &mut output);
    rt.write_all(&output[..m])
}
