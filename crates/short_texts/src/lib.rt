// Every text over twelve characters, of at most six of them: shorter ones first, then in the order of the characters.
// One text a step; the state goes in by value and comes back.
#![tactic(auto)]

ghost use Rattle.std.specs.Prelude.{◌≡◌, [], ◌+◌, ◌<◌, length, get_or};
ghost use Rattle.rules.specs.Call.{filled};
ghost use Rattle.short_texts.specs.Texts.{letters, of_length, texts};
ghost use Rattle.short_texts.specs.Steps.{Numbered, begin, given, step_of};

// How many texts there are.
const TEXTS: usize = 3257437;

// The state: how many texts came before.
#[derive(Clone, Copy)]
pub struct Place {
    pub number: usize,
}

// A text, and the state after it.
// kept: no heap: of a text of at most six characters the size stands beside an array, with zeros after it
#[derive(Clone, Copy)]
pub struct Given {
    pub size: usize,
    pub text: [u8; 6],
    pub next: Place,
}

// The k-th of the twelve characters, from 0.
fn letter(k: usize) -> u8
    requires { k < 12 }
    ensures { result ≡ get_or letters k 0 }
{
    let all = b" \n,\"\\/*${}+a";
    all[k]
}

// The text with this number among those of a size. weight is 12 to the power of the size.
fn text_of(size: usize, weight: usize, number: usize) -> [u8; 6]
    requires { Numbered size weight number }
    ensures { result ≡ filled 6 (get_or (of_length size) number []) }
{
    let mut t = [0u8; 6];
    let mut left = number;
    let mut w = weight;
    for i in 0..size {
        w /= 12;
        t[i] = letter(left / w);
        left %= w;
    }
    t
}

// The text at a number, and the state after it.
fn give(number: usize) -> Given
    requires { number < length texts }
    ensures { result ≡ given (get_or texts number []) (number + 1) }
{
    let mut size = 0;
    let mut weight = 1;
    let mut left = number;
    // kept: a range is no plainer, since the loop ends by the weight, and both grow with the size
    while weight <= left {
        left -= weight;
        weight *= 12;
        size += 1;
    }
    let text = text_of(size, weight, left);
    Given {
        size,
        text,
        next: Place { number: number + 1 },
    }
}

// Before the first text.
pub fn start() -> Place
    ensures { result ≡ begin }
{
    Place { number: 0 }
}

// The next text and the state after it, or the end, at which the state stays.
pub fn step(p: Place) -> Option<Given>
    ensures { result ≡ step_of p }
{
    if p.number < TEXTS {
        Some(give(p.number))
    } else {
        None
    }
}
