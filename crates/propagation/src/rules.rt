// Single rules: forward, from a body that surely holds to the head; backward, from a head that fails to the one literal that is
// open in the body.
ghost use Rattle.std.specs.Prelude.{IsTrue};
ghost use Rattle.answer_sets.specs.Rules.{Satisfies};
ghost use Rattle.literals.specs.Conditions.{Holds};
ghost use Rattle.literals.specs.declared.literal_set.LiteralSet.{LiteralSet as ASet};
ghost use Rattle.picks.specs.Between.{Between};
ghost use Rattle.propagation.specs.Narrowing.{Tighter, Narrowed};

use crate::heads::narrow_by_head;
use crate::statement::Statement;
use literals::Condition;
use picks::Bounds;
use tables::Rule;

impl Statement for Condition {
    ghost holds = { Holds };

    fn fails(self, bounds: Bounds) -> bool {
        !self.wanted.is_subset(bounds.upper) || !self.absent.is_disjoint(bounds.lower)
    }
}

// Whether the condition holds in every set between the bounds.
fn condition_holds(condition: Condition, bounds: Bounds) -> bool
    ensures { IsTrue result → (s : ASet) → Between bounds s → Holds condition s }
{
    condition.wanted.is_subset(bounds.lower) && condition.absent.is_disjoint(bounds.upper)
}

// The bounds of the sets in which the condition does not hold: where it has one open literal, that is settled the other way.
fn narrow_by_failing(condition: Condition, bounds: Bounds) -> Bounds
    ensures { Tighter (λ s. ¬ Holds condition s) bounds result }
{
    let missing = condition.wanted.difference(bounds.lower);
    let opposed = condition.absent.intersection(bounds.upper);
    if missing.len() + opposed.len() == 1 {
        Bounds {
            lower: bounds.lower.union(opposed),
            upper: bounds.upper.difference(missing),
        }
    } else {
        bounds
    }
}

// The bounds of the sets that satisfy the rule.
pub(crate) fn narrow_by_rule(rule: Rule, bounds: Bounds) -> Option<Bounds>
    ensures { Narrowed (λ s. Satisfies s rule) bounds result }
{
    if condition_holds(rule.body, bounds) {
        return narrow_by_head(rule.head, bounds);
    }
    if rule.head.fails(bounds) {
        return Some(narrow_by_failing(rule.body, bounds));
    }
    Some(bounds)
}
