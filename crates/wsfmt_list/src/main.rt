// Does what wsfmt does for each source of a stored list, in which a zero byte ends each. For each it writes the
// length of what wsfmt writes, LF, and that. `stdin` and `stdout` are what `program sources` and `program written`
// of rust/runs print: the Rust's texts, and the refusals that 01 names.
#![tactic(auto)]

use std::io;
use wsfmt_run::MAX_TEXT;

// The length of a text, LF, and the text.
fn put_text<P: Print>(out: &P, text: &[u8]) -> io::Result<()> {
    println!(out; "{}", text.len())?;
    out.write_all(text)
}

fn print_source<P: Print>(out: &P, source: &[u8]) -> io::Result<()> {
    let mut output = [0u8; MAX_TEXT];
    let n = wsfmt_run::print(source, &mut output);
    put_text(out, &output[..n])
}

fn print_all<P: Print>(out: &P, list: &[u8]) -> io::Result<()> {
    if list.is_empty() {
        return Ok(());
    }
    for source in list.strip_suffix(b"\0").unwrap_or(list).split(|b| *b == 0) {
        print_source(out, source)?;
    }
    Ok(())
}

fn main(rt: HostRuntime) -> io::Result<()> {
    let mut list = [0u8; 65536];
    let n = input::read_full(&mut rt.reader(), &mut list)?;
    print_all(&rt, &list[..n])
}
