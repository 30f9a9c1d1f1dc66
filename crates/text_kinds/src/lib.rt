// text_kinds: the text kinds of a list of places, in one reading of the source.
#![tactic(auto)]

ghost use Rattle.std.specs.Prelude.{◌≡◌, true, ◌<◌, ◌≤◌, ◌/◌, length};
ghost use Rattle.utf8.specs.Places.{high_at};
ghost use Rattle.text_kinds.specs.Places.{place_at, places_in, ascending, list_tests, kinds_verdict, kinds_answer};
ghost use Rattle.text_kinds.specs.Reading.{line_of, column_of};
ghost use Rattle.text_kinds.specs.Reading.{EntryAt, IsPlace, IsOn, Listed, Answered, PassedOver, Ahead, Shallow, Without};
ghost use Rattle.text_kinds.specs.Reading.{dollar_at, kind_of_class, ClassesIn, Tells, KindTold, PartAnswered};
ghost use Rattle.text_kinds.specs.Reading.{LineAnswered, place_count, Read, KindsFound, KindsRan, KindsGiven};
ghost use Rattle.rules.specs.Refusals.{tested};
ghost use Rattle.text_kind.specs.Kind.{SourceFits};

use line_ends::line_end;
use rules::{Carry, Refusal, TextKind, class_byte};
use text_kind::{class_kind, in_interpolation, line_at};

// What a host is told.
#[repr(C)]
#[derive(Clone, Copy)]
pub struct Kinds {
    pub refusal: u64,
    pub place: u64,
    pub lines_classified: u64,
}

impl From<Result<u64, Refusal>> for Kinds {
    ghost from_gives = { λ o k. k ≡ kinds_answer o };

    fn from(outcome: Result<u64, Refusal>) -> Kinds {
        match outcome {
            Ok(lines_classified) => Kinds {
                refusal: 0,
                place: 0,
                lines_classified,
            },
            Err(why) => Kinds {
                refusal: why.number(),
                place: why.place(),
                lines_classified: 0,
            },
        }
    }
}

// How far a source is read: where the next line starts, how many lines stand before it, what is open there, the first
// entry of the list that has no answer yet, and up to where the source is known to be ASCII from there.
#[derive(Clone, Copy)]
pub struct Progress {
    pub at: usize,
    pub lines: u64,
    pub carry: Carry,
    pub next: usize,
    pub ascii: usize,
}

// A line and a character column, both from 0.
#[derive(Clone, Copy, PartialEq, Eq, PartialOrd, Ord)]
pub struct Place {
    pub line: u64,
    pub column: u64,
}

// The kind at a place, if the class bytes tell it, and how many bytes at the line's front are known to be no `$`.
#[derive(Clone, Copy)]
struct Told {
    kind: Option<TextKind>,
    clear: usize,
}

// Entry k of the list.
fn place_at(places: &[u64], k: usize) -> Place
    requires { k < length places.now / 2 }
    ensures { result ≡ place_at (line_of places.now k) (column_of places.now k) }
{
    Place {
        line: places[2 * k],
        column: places[2 * k + 1],
    }
}

// Whether the list is in order: no place is before the one in front of it.
fn is_ascending(places: &[u64]) -> bool
    ensures { result ≡ ascending (places_in places.now) }
{
    !(1..places.len() / 2).any(|k| place_at(places, k) < place_at(places, k - 1))
}

// Entry k, if there is one.
// kept: the new form is no plainer: a struct of the list, the entry and the kinds would hold the kinds by `&mut`, and
// each contract below would say by way of the struct what they were and are
fn entry(places: &[u64], k: usize) -> Option<Place>
    ensures { EntryAt places.now k result }
{
    if k < places.len() / 2 {
        Some(place_at(places, k))
    } else {
        None
    }
}

// Whether entry k is this place.
fn is_place(places: &[u64], k: usize, place: Place) -> bool
    ensures { IsPlace places.now k place.line place.column result }
{
    entry(places, k).is_some_and(|p| p == place)
}

// Whether entry k is on this line.
fn is_on(places: &[u64], k: usize, line: u64) -> bool
    ensures { IsOn places.now k line result }
{
    entry(places, k).is_some_and(|p| p.line == line)
}

// Every entry from k on that is this place gets the kind. Gives the next entry.
fn answer_place(places: &[u64], k: usize, place: Place, kind: u8, kinds: &mut [u8]) -> usize
    requires { Listed places.now kinds.old }
    ensures { Answered places.now place.line place.column kind k kinds.old result kinds.new }
{
    let mut next = k;
    // kept: a range is no plainer, since the loop ends at the first entry of another place
    while is_place(places, next, place) {
        kinds[next] = kind;
        next += 1;
    }
    next
}

// The entries from k on that are on this line are passed over. Gives the next entry.
fn pass_line(places: &[u64], k: usize, line: u64) -> usize
    requires { ascending (places_in places.now) ≡ true }
    ensures { PassedOver places.now line k result }
{
    let mut next = k;
    // kept: a range is no plainer, since the loop ends at the first entry of another line
    while is_on(places, next, line) {
        next += 1;
    }
    next
}

// Every entry from k on that is on this line gets its kind, by one reading of the line, up to the last of them.
fn kinds_in_line(
    line: &[u8],
    carry: Carry,
    number: u64,
    places: &[u64],
    k: usize,
    kinds: &mut [u8],
) -> usize
    requires shallow { Shallow carry (length line.now) }
    requires listed { Listed places.now kinds.old }
    requires ahead { Ahead places.now number 0 k }
    ensures { LineAnswered line.now carry number places.now k kinds.old result
        kinds.new }
{
    let mut t = marks::begin(carry);
    let mut next = k;
    let mut column = 0;
    // kept: as in `text_kind::kind_in_line`: every byte has a mark, told by what stands from it on
    for i in 0..line.len() {
        let before = t.mode;
        t = marks::next_mark(&line[i..], t);
        if utf8::is_tail(line[i]) {
            continue;
        }
        let kind = class_kind(t.class, in_interpolation(before)).number();
        let place = Place {
            line: number,
            column,
        };
        next = answer_place(places, next, place, kind, kinds);
        if !is_on(places, next, number) {
            return next;
        }
        column += 1;
    }
    pass_line(places, next, number)
}

// Past the bytes from `at` on that are no `$`, up to `to`.
fn past_clear(line: &[u8], at: usize, to: usize) -> usize
    requires { to ≤ length line.now }
    ensures { Without (dollar_at line.now) at result }
{
    blocks::first_from(at.min(to), to, &|i| line[i] == b'$')
}

// The kind that a class byte stands for outside `${..}`.
#[tactic(auto, unfolding(rules::specs::TextKind::class_kind, rules::specs::Basics::choose))]
fn kind_of_class(class: u8) -> TextKind
    ensures { result ≡ kind_of_class class }
{
    match class {
        class_byte::STR => TextKind::Str,
        class_byte::LINE_COMMENT | class_byte::BLOCK_COMMENT => TextKind::Comment,
        _ => TextKind::Code,
    }
}

// The kind at a column of a line whose first `ascii` bytes are ASCII and whose first `clear` are no `$`, by the class
// byte there. It is not told past the ASCII bytes, and in a string where a `$` stands before the column.
fn told_kind(line: &[u8], class: &[u8], ascii: usize, clear: usize, column: u64) -> Told
    requires { Tells line.now class.now ascii clear }
    ensures { KindTold line.now class.now column result.kind result.clear }
{
    if line.len() as u64 <= column {
        return Told {
            kind: Some(TextKind::Code),
            clear,
        };
    }
    let i = column as usize;
    if ascii <= i {
        return Told { kind: None, clear };
    }
    if class[i] != class_byte::STR {
        return Told {
            kind: Some(kind_of_class(class[i])),
            clear,
        };
    }
    let past = past_clear(line, clear, i);
    if past < i {
        Told {
            kind: None,
            clear: past,
        }
    } else {
        Told {
            kind: Some(TextKind::Str),
            clear: past,
        }
    }
}

// The entries from k on that are on this line get their kinds by its class bytes, up to the first that these don't
// tell. Gives the next entry.
fn kinds_by_class(
    line: &[u8],
    class: &[u8],
    ascii: usize,
    number: u64,
    places: &[u64],
    k: usize,
    kinds: &mut [u8],
) -> usize
    requires tells { Tells line.now class.now ascii 0 }
    requires listed { Listed places.now kinds.old }
    ensures { PartAnswered line.now class.now number places.now k
        kinds.old result kinds.new }
{
    let mut next = k;
    let mut clear = 0;
    // kept: a range is no plainer, since the loop ends at the first entry of another line
    while is_on(places, next, number) {
        let told = told_kind(line, class, ascii, clear, place_at(places, next).column);
        let Some(kind) = told.kind else {
            return next;
        };
        clear = told.clear;
        kinds[next] = kind.number();
        next += 1;
    }
    next
}

// A line's number, what is open before it, and how many of its first bytes are known to be ASCII.
#[derive(Clone, Copy)]
pub struct Before {
    pub number: u64,
    pub carry: Carry,
    pub ascii: usize,
}

// Every entry from k on that is on this line gets its kind: by the line's class bytes, or, from the first that these
// don't tell, by a reading of the line.
fn answer_line(
    line: &[u8],
    class: &[u8],
    b: Before,
    places: &[u64],
    k: usize,
    kinds: &mut [u8],
) -> usize
    requires classes_in { ClassesIn b.carry line.now class.now }
    requires tells { Tells line.now class.now b.ascii 0 }
    requires shallow { Shallow b.carry (length line.now) }
    requires listed { Listed places.now kinds.old }
    requires ahead { Ahead places.now b.number 0 k }
    ensures { LineAnswered line.now b.carry b.number places.now k
        kinds.old result kinds.new }
{
    let next = kinds_by_class(line, class, b.ascii, b.number, places, k, kinds);
    if is_on(places, next, b.number) {
        kinds_in_line(line, b.carry, b.number, places, next, kinds)
    } else {
        next
    }
}

// Up to where a source is ASCII from `at` on: `ascii`, or, if that is before `end`, as far as a search finds.
fn ascii_to(source: &[u8], at: usize, end: usize, ascii: usize) -> usize
    requires at_le_end { (at ≤ end) × (end ≤ length source.now) }
    requires without { Without (high_at source.now) at ascii }
    ensures { Without (high_at source.now) at result × (at ≤ result) }
{
    if end <= ascii {
        ascii
    } else {
        utf8::past_blocks(source, at)
    }
}

// One line more. A line that no place is on is only read for what it leaves open.
fn read_line(
    source: &[u8],
    places: &[u64],
    kinds: &mut [u8],
    scratch: &mut [u8],
    p: Progress,
) -> Progress
    requires source_fits { SourceFits source.now scratch.old }
    requires listed { Listed places.now kinds.old }
    requires read { Read source.now places.now kinds.old p }
    requires at_in_bounds { (p.at < length source.now) × (p.next < place_count places.now) }
    ensures { Read source.now places.now kinds.new result × (p.at < result.at) }
{
    let end = line_end(source, p.at);
    let line = line_at(source, p.at, end);
    let after = scan::classify(line, p.carry, scratch);
    let read = Progress {
        at: end + 1,
        lines: p.lines + 1,
        carry: after,
        ..p
    };
    if !is_on(places, p.next, p.lines) {
        return read;
    }
    let ascii = ascii_to(source, p.at, end, p.ascii);
    let before = Before {
        number: p.lines,
        carry: p.carry,
        ascii: ascii - p.at,
    };
    let next = answer_line(line, scratch, before, places, p.next, kinds);
    Progress {
        next,
        ascii,
        ..read
    }
}

// The kinds of all places of a list in order, then zeros. Gives the number of lines classified.
pub fn text_kinds(source: &[u8], places: &[u64], kinds: &mut [u8], scratch: &mut [u8]) -> u64
    requires source_fits { SourceFits source.now scratch.old }
    requires listed { Listed places.now kinds.old }
    ensures { KindsFound source.now places.now (length kinds.old) result
        kinds.new }
{
    buffer::zero(kinds);
    let n = places.len() / 2;
    let mut p = Progress {
        at: 0,
        lines: 0,
        carry: Carry::Code,
        next: 0,
        ascii: 0,
    };
    // kept: a range is no plainer, since a step takes a line, however long; an iterator of lines would not tell the
    // place of a line, from which `ascii` reaches over the lines behind it
    while p.at < source.len() && p.next < n {
        p = read_line(source, places, kinds, scratch, p);
    }
    p.lines
}

// Refusals 9 and 10.
#[tactic(auto, using(crate::proofs::PlaceLaws::count_half))]
fn test_list(places: &[u64], room: usize) -> Result<(), Refusal>
    ensures { result ≡ tested (list_tests places.now room) }
{
    if !is_ascending(places) {
        return Err(Refusal::PlacesUnordered);
    }
    if room < places.len() / 2 {
        return Err(Refusal::KindsShort);
    }
    Ok(())
}

// Refusals 1, 3 and 4, then 9 and 10.
fn test(source: &[u8], places: &[u64], room: usize, scratch: usize) -> Result<(), Refusal>
    ensures { result ≡ kinds_verdict source.now places.now room scratch }
{
    text_kind::test(source, scratch)?;
    test_list(places, room)
}

// The kinds of all places and the number of lines classified, or the first refusal that applies and no kinds.
fn run_kinds(
    source: &[u8],
    places: &[u64],
    kinds: &mut [u8],
    scratch: &mut [u8],
) -> Result<u64, Refusal>
    ensures { KindsRan source.now places.now (length kinds.old) (length scratch.old) result kinds.new }
{
    match test(source, places, kinds.len(), scratch.len()) {
        Err(why) => {
            buffer::zero(kinds);
            Err(why)
        },
        Ok(()) => Ok(text_kinds(source, places, kinds, scratch)),
    }
}

// The same in numbers.
pub fn answer(source: &[u8], places: &[u64], kinds: &mut [u8], scratch: &mut [u8]) -> Kinds
    ensures { KindsGiven source.now places.now (length kinds.old)
        (length scratch.old) result kinds.new }
{
    run_kinds(source, places, kinds, scratch).into()
}
