// One pass over the rules. Each rule narrows the bounds; on the way the literals are collected that a rule may still give. What
// no rule gives is out, and so is the strong negation of what is in.
ghost use Rattle.answer_sets.specs.Rules.{rules_of};
ghost use Rattle.propagation.specs.Narrowing.{Narrowed, Lawful};

use crate::turn::Turn;
use picks::Bounds;
use tables::{Records, Rule, RuleRow};

// The bounds of the lawful fits, after one pass.
pub(crate) fn pass(rows: &[RuleRow], bounds: Bounds) -> Option<Bounds>
    ensures { Narrowed (Lawful (rules_of rows.now)) bounds result }
{
    let mut turn = Turn::new(bounds);
    for rule in Records::<Rule>::of(rows) {
        turn = turn.step(rule)?;
    }
    Some(turn.supported())
}
