// top_level_ops: where the binary operators outside every bracket are, byte by byte.
#![tactic(auto)]

ghost use Rattle.std.specs.Prelude.{ℕ, List, true, ◌≡◌, not, ◌&&◌, ◌||◌, ◌<◌, eqb, length, get_or, drop, take};
ghost use Rattle.rules.specs.Basics.{choose, is, at, first_is};
ghost use Rattle.rules.specs.Scan.{cell};
ghost use Rattle.rules.specs.ClassBytes.{class_of};
ghost use Rattle.rules.specs.Operators.{operators, index_in};
ghost use Rattle.rules.specs.SplitOperation.{Ops, OpStep, ends_operand, atom_char, token, is_sign, one_char_step};
ghost use Rattle.operators.specs.Places.{place_in};
ghost use Rattle.top_level_ops.specs.Steps.{ops_of, AtomLen, AtomFound, sign_step, token_step, strength_in, step_with};
ghost use Rattle.top_level_ops.specs.Steps.{step_or, code_or, fresh_or, byte_or, passed, unless, found_as, FewBrackets};
ghost use Rattle.top_level_ops.specs.Steps.{goes_on, LongToken};

use basics::{is_blank, is_closer, is_ident, is_opener, starts_with};
use operators::{Operator, is_sign};
use rules::class_byte::STR;

// Before a byte: the brackets opened and closed so far, whether an operand ends here, an escape, and how many more
// bytes belong to the token before.
#[derive(Clone, Copy, Default)]
pub struct OpState {
    pub opened: usize,
    pub closed: usize,
    pub operand: bool,
    pub esc: bool,
    pub skip: usize,
}

// A token of code: the operator that it is, if it is one; whether an operand ends with it; and how many more bytes it
// has.
#[derive(Clone, Copy)]
pub struct Token {
    pub operator: Option<Operator>,
    pub operand: bool,
    pub skip: usize,
}

#[tactic(auto, unfolding(rules::specs::SplitOperation::ends_operand))]
fn ends_operand(c: u8) -> bool
    ensures { result ≡ ends_operand c }
{
    is_ident(c) || matches!(c, b')' | b']' | b'"' | b'\'')
}

fn in_atom(c: u8) -> bool
    ensures { result ≡ atom_char c }
{
    is_ident(c) || c == b'-'
}

// How many bytes of an atom's name s starts with.
// kept: no plainer: `position(..).unwrap_or(s.len())` is a line too, and `FirstFrom` is what the laws are of
fn atom_len(s: &[u8]) -> usize
    ensures { AtomLen s.now result }
{
    blocks::first_from(0, s.len(), &|i| !in_atom(s[i]))
}

// A token of n + 1 bytes that is no operator.
fn plain_token(operand: bool, n: usize) -> Token
    ensures { (table : List ℕ) (s : Ops) → step_with table s result ≡ token s operand n }
{
    Token {
        operator: None,
        operand,
        skip: n,
    }
}

// The operator of two bytes that s starts with.
fn two_at(s: &[u8]) -> Option<Operator>
    ensures { place_in result ≡ choose (eqb (length (take 2 s.now)) 2) (index_in operators (take 2 s.now))
        21 }
{
    match s {
        [a, b, ..] => Operator::of_two(*a, *b),
        _ => None,
    }
}

// The length of the atom's name after a `:` where no operand ends.
fn atom_at(operand: bool, l: &[u8]) -> Option<usize>
    requires { 0 < length l.now }
    ensures { AtomFound operand l.now result }
{
    if l[0] != b':' || operand {
        return None;
    }
    let n = atom_len(&l[1..]);
    (n != 0).then_some(n)
}

fn is_arrow(l: &[u8]) -> bool
    ensures { result ≡ (at l.now "->" || at l.now "=>") }
{
    starts_with(l, b"->") || starts_with(l, b"=>")
}

fn is_shift_assign(l: &[u8]) -> bool
    ensures { result ≡ (at l.now "<<=" || at l.now ">>=") }
{
    starts_with(l, b"<<=") || starts_with(l, b">>=")
}

// Whether `=` stands after the first byte.
fn is_assign(l: &[u8]) -> bool
    ensures { result ≡ first_is (is "=") (drop 1 l.now) }
{
    matches!(l, [_, b'=', ..])
}

// A sign where no operand ends.
fn is_unary(operand: bool, c: u8) -> bool
    ensures { result ≡ (is_sign c && not operand) }
{
    !operand && is_sign(c)
}

// A token of one character or, where it assigns, of two.
fn one_char_step(operand: bool, c: u8, assigns: bool) -> Token
    ensures { (table : List ℕ) (s : Ops) (cs : List ℕ) → s.operand ≡ operand → assigns ≡ first_is (is "=") cs
        → step_with table s result ≡ one_char_step table s c cs }
{
    let Some(operator) = Operator::of_one(c) else {
        return plain_token(ends_operand(c), 0);
    };
    if assigns || is_unary(operand, c) {
        return plain_token(false, usize::from(assigns));
    }
    Token {
        operator: Some(operator),
        operand: false,
        skip: 0,
    }
}

fn sign_step(operand: bool, l: &[u8]) -> Token
    requires { 0 < length l.now }
    ensures { (table : List ℕ) (s : Ops) → s.operand ≡ operand
        → step_with table s result ≡ sign_step table s l.now }
{
    if starts_with(l, b"...") {
        return plain_token(false, 2);
    }
    if is_arrow(l) {
        return plain_token(false, 1);
    }
    let Some(operator) = two_at(l) else {
        return one_char_step(operand, l[0], is_assign(l));
    };
    if is_shift_assign(l) {
        return plain_token(false, 2);
    }
    Token {
        operator: Some(operator),
        operand: false,
        skip: 1,
    }
}

// A token that may have several characters.
fn long_token(operand: bool, l: &[u8]) -> Token
    requires { 0 < length l.now }
    ensures { (table : List ℕ) (s : Ops) → s.operand ≡ operand
        → step_with table s result ≡ token_step table s l.now }
{
    match atom_at(operand, l) {
        Some(n) => plain_token(ends_operand(l[n]), n),
        None => sign_step(operand, l),
    }
}

// Whether b may stand second in an operator, a `...`, an arrow or an assignment.
fn goes_on(b: u8) -> bool
    ensures { result ≡ goes_on b }
{
    matches!(b, b'|' | b'^' | b'&' | b'=' | b'<' | b'>' | b'.' | b'*')
}

// Whether the token at the head of l may have several bytes: of most that have one this is told at once.
fn may_be_long(l: &[u8]) -> bool
    requires { 0 < length l.now }
    ensures { LongToken l.now result }
{
    l[0] == b':' || 1 < l.len() && goes_on(l[1])
}

// The token at the head of l, which is code and neither blank nor a bracket.
pub fn token_at(operand: bool, l: &[u8]) -> Token
    requires { 0 < length l.now }
    ensures { (table : List ℕ) (s : Ops) → s.operand ≡ operand
        → step_with table s result ≡ token_step table s l.now }
{
    if may_be_long(l) {
        long_token(operand, l)
    } else {
        one_char_step(operand, l[0], false)
    }
}

impl OpState {
    // Over a byte that is no operator and no bracket.
    fn pass(&mut self, operand: bool, esc: bool, skip: usize)
        ensures { self.new ≡ passed self.old operand esc skip }
    {
        self.operand = operand;
        self.esc = esc;
        self.skip = skip;
    }

    fn code_step(&mut self, c: u8) -> bool
        requires { FewBrackets self.old }
        ensures stepped { (t : OpStep) → step_or t (unless result self.new) ≡ code_or t (ops_of self.old) c }
        ensures same { result ≡ true → self.new ≡ self.old }
    {
        if is_blank(c) {
            self.pass(self.operand, false, 0);
        } else if is_opener(c) {
            self.opened += 1;
            self.pass(false, false, 0);
        } else if is_closer(c) {
            self.closed += 1;
            self.pass(ends_operand(c), false, 0);
        } else {
            return true;
        }
        false
    }

    // A string is one operand; an escaped character is passed over.
    fn fresh_step(&mut self, k: u8, c: u8) -> bool
        requires { FewBrackets self.old }
        ensures stepped { (t : OpStep) → step_or t (unless result self.new) ≡ fresh_or t (ops_of self.old)
            (cell c (class_of k)) }
        ensures same { result ≡ true → self.new ≡ self.old }
    {
        if k == STR {
            self.pass(true, self.esc, 0);
        } else if self.esc {
            self.pass(self.operand, false, 0);
        } else if c == b'\\' {
            self.pass(self.operand, true, 0);
        } else {
            return self.code_step(c);
        }
        false
    }

    // Over the byte c with the class byte k, unless a token may start there, which the answer tells. A byte that starts
    // no character leaves the state as it is.
    pub fn step(&mut self, k: u8, c: u8) -> bool
        requires { FewBrackets self.old }
        ensures stepped { (t : OpStep) → step_or t (unless result self.new) ≡ byte_or t (ops_of self.old)
            (cell c (class_of k)) }
        ensures same { result ≡ true → self.new ≡ self.old }
    {
        if utf8::is_tail(c) {
            false
        } else if 0 < self.skip {
            self.pass(self.operand, false, self.skip - 1);
            false
        } else {
            self.fresh_step(k, c)
        }
    }

    // Over the first byte of a token: the operator, which counts outside brackets, at depth exactly 0.
    pub fn take(&mut self, t: Token) -> Option<Operator>
        ensures { (table : List ℕ)
            → found_as (strength_in table result) self.new ≡ step_with table (ops_of self.old) t }
    {
        self.pass(t.operand, false, t.skip);
        if self.opened == self.closed {
            t.operator
        } else {
            None
        }
    }
}
