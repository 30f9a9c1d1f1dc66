// What the program prints, page by page.
ghost use Rattle.std.specs.Prelude.{◌≡◌, ◌+◌, ◌≤◌, length};
ghost use Rattle.short_texts.specs.Texts.{Short};
ghost use Rattle.short_sources.specs.Printed.{digit_in, greatest_in, TextIn, Added, Paged};

use call::Request;
use rules::{OptionNumbers, Strengths};
use short_texts::Place;

// More than a source adds: 20 digits, LF and a text of at most 456 bytes.
const ROOM: usize = 512;

// A page: how many bytes of it are filled, and the place of the next source, if there may be one.
#[derive(Clone, Copy)]
pub struct Page {
    pub size: usize,
    pub next: Option<Place>,
}

// A digit from 0 to 6 as a number; any other byte means 6.
#[tactic(auto, unfolding(rules::specs::Basics::choose))]
fn digit(d: u8) -> usize
    ensures { result ≡ digit_in d }
{
    match d {
        b'0'..=b'6' => (d - b'0') as usize,
        _ => 6,
    }
}

// The greatest length of a source: a digit, alone or with one LF after it; anything else means 6.
#[tactic(auto, unfolding(crate::specs::Printed::greatest_in, rules::specs::Basics::choose))]
pub fn greatest(input: &[u8]) -> usize
    ensures { result ≡ greatest_in input.now }
{
    match input {
        [d] | [d, b'\n'] => digit(*d),
        _ => 6,
    }
}

// Writes the text of a source, formatted with the default options, over the front of the output, and gives its length.
fn format_short(source: &[u8], output: &mut [u8]) -> usize
    requires short { Short source.now }
    requires in_bounds { 456 ≤ length output.old }
    ensures { TextIn source.now output.new result }
{
    let mut scratch = [0u8; 512];
    let strengths = Strengths::BUILT_IN;
    let request = Request {
        source,
        indent: b"  ",
        numbers: OptionNumbers::DEFAULTS,
        strengths: &strengths.table,
    };
    let answer = call::format_call(request, output, &mut [], &mut scratch);
    answer.length as usize
}

// Writes the text's length, LF and the text into the page from the place at on, and gives the next place.
fn add_source(page: &mut [u8], at: usize, source: &[u8]) -> usize
    requires short { Short source.now }
    requires at_in_bounds { at + 512 ≤ length page.old }
    ensures { Added page.old page.new at source.now result }
{
    let mut output = [0u8; 512];
    let n = format_short(source, &mut output);
    let behind = decimal::put_decimal(page, at, n as u64);
    let from = buffer::append(page, behind, b"\n");
    buffer::append(page, from, &output[..n])
}

// Fills the page from its front on with what is printed for the sources of at most `most` characters from a place on.
pub fn fill(page: &mut [u8], p: Place, most: usize) -> Page
    requires in_bounds { 512 ≤ length page.old }
    requires most_bound { most ≤ 6 }
    ensures { Paged most p page.new result }
{
    let mut size = 0;
    let mut next = p;
    // kept: a range is no plainer, since a step takes as many bytes as the source's text has
    while ROOM <= page.len() - size {
        let Some(g) = short_texts::step(next) else {
            return Page { size, next: None };
        };
        if most < g.size {
            return Page { size, next: None };
        }
        size = add_source(page, size, &g.text[..g.size]);
        next = g.next;
    }
    Page {
        size,
        next: Some(next),
    }
}
