// The literals by which the answer sets of a table of rules are told apart, and how many they are.
ghost use Rattle.std.specs.Prelude.{[], ◌∷◌};
ghost use Rattle.answer_sets.specs.Rules.{rules_of};
ghost use Rattle.breadth.specs.Breadth.{DecisiveSet, Breadth, AtMostAnswers};

use literals::LiteralSet;
use tables::{Head, Records, Rule, RuleRow};

// The literals under "not" in the body of the rule, and those of its head where that is a choice.
fn decisive(rule: Rule) -> LiteralSet
    ensures { DecisiveSet (rule ∷ []) result }
{
    let absent = rule.body.absent;
    match rule.head {
        Head::Plain(_) => absent,
        Head::Constraint => absent,
        Head::Choice(choice) => absent.union(choice.head),
    }
}

// The breadth of the rules of the table: how many different literals stand under "not" in a body or in a choice head. With a
// breadth of n there are at most 2 to the power of n answer sets.
pub fn breadth(rows: &[RuleRow]) -> u32
    ensures counted { Breadth (rules_of rows.now) result }
    ensures bound { AtMostAnswers (rules_of rows.now) result }
{
    Records::of(rows)
        .fold(LiteralSet::EMPTY, |set, rule| set.union(decisive(rule)))
        .len()
}
