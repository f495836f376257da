// Answer sets.
ghost use Rattle.answer_sets.specs.AnswerSets.{AnswerSet};
ghost use Rattle.answer_sets.specs.Rules.{rules_of, Satisfies};
ghost use Rattle.std.specs.Prelude.{◌↔◌, IsTrue, All};

use crate::closing::least_set;
use crate::rules::satisfies;
use literals::LiteralSet;
use tables::{Records, RuleRow};

// Whether the set satisfies every rule. Table and set stay two parameters, here and below: many sets are asked of one table.
fn satisfies_all(rows: &[RuleRow], set: LiteralSet) -> bool
    ensures { IsTrue result ↔ All (Satisfies set) (rules_of rows.now) }
{
    Records::of(rows).all(|rule| satisfies(set, rule))
}

// Whether the set is an answer set of the rules of the table.
pub fn is_answer_set(rows: &[RuleRow], set: LiteralSet) -> bool
    ensures { IsTrue result ↔ AnswerSet (rules_of rows.now) set }
{
    satisfies_all(rows, set) && least_set(rows, set) == set
}
