// Inner functions for the runs beside the Rust's own: no part of what a host links. Each checks what the function asks,
// and answers zeros where it does not hold.
#![tactic(auto)]

ghost use Rattle.std.specs.Prelude.{◌≡◌, ◌+◌, ◌*◌, ◌≤◌, length};
ghost use Rattle.rules.specs.Brackets.{levels};
ghost use Rattle.brackets.specs.Stack.{entry_size, stacked};
ghost use Rattle.basics.specs.Depth.{carry_depth};

use brackets::{ENTRY, Nesting};
use rules::Carry;

// The greatest length and depth that these functions take.
const MOST: usize = 0x1000_0000;

// What is open: 0 code, 1 a block comment of this depth, 2 a prefab.
#[repr(C)]
#[derive(Clone, Copy)]
pub struct Open {
    pub carry: u64,
    pub depth: u64,
}

fn carry_named(carry: u64, depth: u32) -> Carry
    ensures { carry_depth result ≤ depth }
{
    match carry {
        0 => Carry::Code,
        1 => Carry::Block(depth),
        _ => Carry::Prefab,
    }
}

impl From<Carry> for Open {
    fn from(carry: Carry) -> Open {
        match carry {
            Carry::Code => Open { carry: 0, depth: 0 },
            Carry::Block(d) => Open {
                carry: 1,
                depth: d as u64,
            },
            Carry::Prefab => Open { carry: 2, depth: 0 },
        }
    }
}

// The class byte of each byte of the line, and what is open after it.
#[unsafe(no_mangle)]
pub extern "C" fn wirescript_test_classify(
    line: &[u8],
    carry: u64,
    depth: u32,
    classes: &mut [u8],
) -> Open {
    let n = line.len();
    if MOST < n || MOST < depth as usize || classes.len() < n {
        return Open { carry: 0, depth: 0 };
    }
    scan::classify(line, carry_named(carry, depth), classes).into()
}

// The respaced line, made as the formatter makes it: scratch holds the line's n class bytes, and after them takes the
// text, of which the length is given.
#[unsafe(no_mangle)]
pub extern "C" fn wirescript_test_normalize_spacing(line: &[u8], scratch: &mut [u8]) -> u64 {
    let n = line.len();
    if MOST < n || scratch.len() < 3 * n {
        return 0;
    }
    let (class, out) = scratch.split_at_mut(n);
    let kept = spacing::spaced_to(line, class);
    spacing::normalize_from(line, class, out, kept) as u64
}

// Whether the line is spaced already.
#[unsafe(no_mangle)]
pub extern "C" fn wirescript_test_is_spaced(line: &[u8], classes: &[u8]) -> bool {
    line.len() <= classes.len() && spacing::is_spaced(line, classes)
}

// How many of the stack's entries added a level: a call of the formatter has this as a running value.
fn levels_in(scratch: &[u8], base: usize, depth: usize) -> usize
    requires { base + entry_size * depth ≤ length scratch.now }
    ensures { result ≡ levels (stacked scratch.now base depth) }
{
    let mut levels = 0;
    for i in 0..depth {
        if scratch[base + ENTRY * i] % 2 != 0 {
            levels += 1;
        }
    }
    levels
}

// The brackets of the line, the source's first: scratch holds its n class bytes, and after them the stack of `depth`
// entries; the new depth is given.
#[unsafe(no_mangle)]
pub extern "C" fn wirescript_test_scan_brackets(
    line: &[u8],
    scratch: &mut [u8],
    depth: u64,
) -> u64 {
    let n = line.len();
    let d = depth as usize;
    if MOST < n || MOST < d || scratch.len() < n + ENTRY * (d + n) {
        return 0;
    }
    let levels = levels_in(scratch, n, d);
    let b = Nesting {
        depth: d,
        levels,
        line: 0,
    };
    let r = brackets::scan_brackets(line, scratch, 0, n, b, 0);
    r.depth as u64
}
