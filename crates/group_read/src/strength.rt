// The strengths of 01's operators, by the table that splitting breaks by.
ghost use Rattle.std.specs.Prelude.{[], ◌∷◌, get_or};
ghost use Rattle.rules.specs.Operators.{strengths};
ghost use Rattle.operators.specs.Places.{place_in};
ghost use Rattle.group_rules.specs.Grouping.{strength_of};
ghost use Rattle.group_read.specs.Strength.{Positive};

use operators::Operator;
use rules::Strengths;

fn built_in(operator: Option<Operator>) -> Option<u8>
    ensures { Positive (get_or strengths (place_in operator) 0) result }
{
    let s = operator?.strength(&Strengths::BUILT_IN.table);
    (s != 0).then_some(s)
}

// Of the byte a alone.
pub fn of_one(a: u8) -> Option<u8>
    ensures { Positive (strength_of (a ∷ [])) result }
{
    built_in(Operator::of_one(a))
}

// Of two bytes.
pub fn of_two(a: u8, b: u8) -> Option<u8>
    ensures { Positive (strength_of (a ∷ b ∷ [])) result }
{
    built_in(Operator::of_two(a, b))
}
