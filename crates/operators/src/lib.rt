// The operators: which they are, in the order of document 01's tightness list, and their strengths in a table. The list
// of the rules has the same order, and the contracts say so. They are found by comparing bytes: a table that is indexed
// would be slower.
#![tactic(auto)]

pub mod first;

ghost use Rattle.std.specs.Prelude.{◌≡◌, [], ◌∷◌, get_or};
ghost use Rattle.rules.specs.Basics.{one_of};
ghost use Rattle.rules.specs.Operators.{operators, index_in};
ghost use Rattle.rules.specs.Strengths.{strengths_in};
ghost use Rattle.rules.specs.SplitOperation.{is_sign};
ghost use Rattle.operators.specs.Places.{place_of, place_in};

use rules::Strengths;

// A strength takes 4 bits.
pub const MAX_STRENGTH: usize = 15;

#[derive(Clone, Copy, PartialEq, Eq)]
pub enum Operator {
    Or,
    Xor,
    And,
    BitOr,
    BitXor,
    BitAnd,
    Equal,
    NotEqual,
    Less,
    Greater,
    AtMost,
    AtLeast,
    ShiftLeft,
    ShiftRight,
    Range,
    Add,
    Sub,
    Mul,
    Div,
    Rem,
    Pow,
}

impl Operator {
    // The one that is the byte a twice.
    #[tactic(auto, using(crate::proofs::OperatorLaws::double_none), unfolding(rules::specs::Operators::index_in, rules::specs::Basics::same, rules::specs::Basics::choose))]
    fn doubled(a: u8) -> Option<Operator>
        ensures { place_in result ≡ index_in operators (a ∷ a ∷ []) }
    {
        match a {
            b'|' => Some(Operator::Or),
            b'^' => Some(Operator::Xor),
            b'&' => Some(Operator::And),
            b'=' => Some(Operator::Equal),
            b'<' => Some(Operator::ShiftLeft),
            b'>' => Some(Operator::ShiftRight),
            b'.' => Some(Operator::Range),
            b'*' => Some(Operator::Pow),
            _ => None,
        }
    }

    // The one that is the byte a and `=`.
    #[tactic(auto, using(crate::proofs::OperatorLaws::equals_none), unfolding(rules::specs::Operators::index_in, rules::specs::Basics::same, rules::specs::Basics::choose))]
    fn with_equals(a: u8) -> Option<Operator>
        requires { a ≡ 61 → ⊥ }
        ensures { place_in result ≡ index_in operators (a ∷ 61 ∷ []) }
    {
        match a {
            b'!' => Some(Operator::NotEqual),
            b'<' => Some(Operator::AtMost),
            b'>' => Some(Operator::AtLeast),
            _ => None,
        }
    }

    // The one that is two bytes.
    #[tactic(auto, using(crate::proofs::OperatorLaws::two_none), unfolding(rules::specs::Operators::index_in, rules::specs::Basics::same, rules::specs::Basics::choose))]
    pub fn of_two(a: u8, b: u8) -> Option<Operator>
        ensures { place_in result ≡ index_in operators (a ∷ b ∷ []) }
    {
        if a == b {
            return Operator::doubled(a);
        }
        if b == b'=' {
            return Operator::with_equals(a);
        }
        None
    }

    // The one that is the byte a alone.
    #[tactic(auto, using(crate::proofs::OperatorLaws::one_none), unfolding(rules::specs::Operators::index_in, rules::specs::Basics::same, rules::specs::Basics::choose))]
    pub fn of_one(a: u8) -> Option<Operator>
        ensures { place_in result ≡ index_in operators (a ∷ []) }
    {
        match a {
            b'+' => Some(Operator::Add),
            b'-' => Some(Operator::Sub),
            b'*' => Some(Operator::Mul),
            b'/' => Some(Operator::Div),
            b'%' => Some(Operator::Rem),
            b'|' => Some(Operator::BitOr),
            b'^' => Some(Operator::BitXor),
            b'&' => Some(Operator::BitAnd),
            b'<' => Some(Operator::Less),
            b'>' => Some(Operator::Greater),
            _ => None,
        }
    }

    // The strength that a table has for it: the upper or the lower four bits of a byte.
    pub fn strength(self, table: &[u8; Strengths::LENGTH]) -> u8
        ensures { result ≡ get_or (strengths_in table.now) (place_of self) 0 }
    {
        let k = self as usize;
        let b = table[k / 2];
        if k % 2 == 0 { b / 16 % 16 } else { b % 16 }
    }
}

// Whether the byte a alone is an operator.
pub fn is_one(a: u8) -> bool
    ensures { result ≡ one_of operators (a ∷ []) }
{
    Operator::of_one(a).is_some()
}

// Whether two bytes are one.
pub fn is_two(a: u8, b: u8) -> bool
    ensures { result ≡ one_of operators (a ∷ b ∷ []) }
{
    Operator::of_two(a, b).is_some()
}

// An operator that is a sign where no operand ends.
#[tactic(auto, unfolding(rules::specs::SplitOperation::is_sign))]
pub fn is_sign(c: u8) -> bool
    ensures { result ≡ is_sign c }
{
    matches!(c, b'+' | b'-')
}
