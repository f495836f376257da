// Heads that have to hold: the literal of a plain head, and the numbers of a choice head both ways.
ghost use Rattle.std.specs.Prelude.{◌≤◌};
ghost use Rattle.answer_sets.specs.Rules.{HeadHolds};
ghost use Rattle.literals.specs.Sets.{◌⊑◌, common};
ghost use Rattle.literals.specs.declared.literal_set.LiteralSet.{LiteralSet as ASet};
ghost use Rattle.picks.specs.Between.{Between};
ghost use Rattle.propagation.specs.Narrowing.{Tighter, Narrowed};
ghost use Rattle.tables.specs.declared.records.Head.TheVariants.{Choice as AChoice};

use crate::statement::Statement;
use literals::LiteralSet;
use picks::Bounds;
use tables::{Choice, Head};

impl Statement for Head {
    ghost holds = { HeadHolds };

    fn fails(self, bounds: Bounds) -> bool {
        match self {
            Head::Plain(literal) => !bounds.upper.has(literal),
            Head::Constraint => true,
            Head::Choice(choice) => choice.fails(bounds),
        }
    }
}

// It fails where every set between the bounds has too few or too many of its literals.
impl Statement for Choice {
    ghost holds = { λ choice. HeadHolds (AChoice choice) };

    fn fails(self, bounds: Bounds) -> bool {
        self.head.count_common(bounds.upper) < u32::from(self.least)
            || self.head.count_common(bounds.lower) > u32::from(self.greatest)
    }
}

// As many as may be are in: then the others are out.
fn upper_by_choice(choice: Choice, bounds: Bounds) -> LiteralSet
    ensures tighter { result ⊑ bounds.upper }
    ensures keeps { (s : ASet) → common choice.head s ≤ choice.greatest
        → Between bounds s → s ⊑ result }
{
    if choice.head.count_common(bounds.lower) == u32::from(choice.greatest) {
        bounds
            .upper
            .difference(choice.head.difference(bounds.lower))
    } else {
        bounds.upper
    }
}

// No more than must be can be in: then they all are. The mirror of the function above: but for the
// count, no operation is the same in both.
fn lower_by_choice(choice: Choice, bounds: Bounds) -> LiteralSet
    ensures tighter { bounds.lower ⊑ result }
    ensures keeps { (s : ASet) → choice.least ≤ common choice.head s
        → Between bounds s → result ⊑ s }
{
    if choice.head.count_common(bounds.upper) == u32::from(choice.least) {
        bounds.lower.union(choice.head.intersection(bounds.upper))
    } else {
        bounds.lower
    }
}

// The bounds of the sets in which a choice head holds.
fn narrow_by_choice(choice: Choice, bounds: Bounds) -> Bounds
    ensures { Tighter (HeadHolds (AChoice choice)) bounds result }
{
    Bounds {
        lower: lower_by_choice(choice, bounds),
        upper: upper_by_choice(choice, bounds),
    }
}

// The bounds of the sets in which the head holds.
pub(crate) fn narrow_by_head(head: Head, bounds: Bounds) -> Option<Bounds>
    ensures { Narrowed (HeadHolds head) bounds result }
{
    if head.fails(bounds) {
        return None;
    }
    match head {
        Head::Plain(literal) => Some(bounds.include(literal)),
        Head::Constraint => Some(bounds),
        Head::Choice(choice) => Some(narrow_by_choice(choice, bounds)),
    }
}
