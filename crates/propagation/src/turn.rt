// The state of a pass over the rules.
ghost use Rattle.std.specs.Prelude.{◌≡◌, MatchOption};
ghost use Rattle.answer_sets.specs.Rules.{Satisfies, Gives};
ghost use Rattle.literals.specs.Sets.{Lit, In};
ghost use Rattle.literals.specs.declared.literal_set.LiteralSet.{LiteralSet as ASet};
ghost use Rattle.propagation.specs.Narrowing.{NoneBetween};
ghost use Rattle.propagation.specs.Support.{Turned, Supported};

use crate::rules::narrow_by_rule;
use crate::statement::Statement;
use literals::LiteralSet;
use picks::Bounds;
use tables::{Head, Rule};

// The bounds so far, and the literals that a rule may still give.
#[derive(Clone, Copy)]
pub(crate) struct Turn {
    bounds: Bounds,
    support: LiteralSet,
}

impl Turn {
    // Before the first rule.
    pub(crate) fn new(bounds: Bounds) -> Turn
        ensures { result.bounds ≡ bounds }
    {
        Turn {
            bounds,
            support: LiteralSet::EMPTY,
        }
    }

    // After one rule more: its head is in the support, unless its body fails between the bounds. None only where no set between
    // the bounds satisfies the rule.
    pub(crate) fn step(self, rule: Rule) -> Option<Turn>
        ensures { MatchOption result
            (NoneBetween (λ s. Satisfies s rule) self.bounds)
            (Turned rule self) }
    {
        if rule.body.fails(self.bounds) {
            return Some(self);
        }
        Some(Turn {
            bounds: narrow_by_rule(rule, self.bounds)?,
            support: self.support.union(head_literals(rule.head)),
        })
    }

    // The bounds after the last rule: what no rule gives is out, and so is the strong negation of what is in.
    pub(crate) fn supported(self) -> Bounds
        ensures { Supported self result }
    {
        let supported = self.bounds.upper.intersection(self.support);
        Bounds {
            lower: self.bounds.lower,
            upper: supported.difference(self.bounds.lower.opposite()),
        }
    }
}

// The literals that a head may give.
fn head_literals(head: Head) -> LiteralSet
    ensures { (chosen : ASet) (k : Lit) → Gives head chosen k → In result k }
{
    match head {
        Head::Plain(literal) => LiteralSet::from(literal),
        Head::Constraint => LiteralSet::EMPTY,
        Head::Choice(choice) => choice.head,
    }
}
