// Bounds of sets: what is surely in, and what may be in.
ghost use Rattle.std.specs.Prelude.{◌≡◌, true, ◌↔◌, IsTrue};
ghost use Rattle.picks.specs.Between.{Between, BoundsOf, FirstOpen, Including, Excluding, RaisesLower, CutsUpper};
ghost use Rattle.literals.specs.Sets.{◌⊑◌, Difference, named};
ghost use Rattle.literals.specs.declared.literal_set.LiteralSet.{LiteralSet as ASet};

use crate::picks::Picks;
use literals::{Literal, LiteralSet};

// A set lies between them when it has every literal of `lower` and none outside `upper`.
#[derive(Clone, Copy, PartialEq, Eq, Debug)]
pub struct Bounds {
    pub lower: LiteralSet,
    pub upper: LiteralSet,
}

// The bounds of the fits that keep the picks.
impl From<Picks> for Bounds {
    ghost from_gives = { BoundsOf };

    fn from(picks: Picks) -> Bounds {
        Bounds {
            lower: picks.required(),
            upper: LiteralSet::ALL.difference(picks.excluded()),
        }
    }
}

impl Bounds {
    // Whether the set lies between the bounds.
    pub fn contains(self, set: LiteralSet) -> bool
        ensures { IsTrue result ↔ Between self set }
    {
        self.lower.is_subset(set) && set.is_subset(self.upper)
    }

    // Whether the bounds are crossed: something is in the lower one and not in the upper. Then, and only then, nothing lies
    // between them.
    pub fn are_crossed(self) -> bool
        ensures crossed { IsTrue result ↔ (self.lower ⊑ self.upper → ⊥) }
        ensures nothing { IsTrue result ↔ ((s : ASet) → Between self s → ⊥) }
    {
        !self.lower.is_subset(self.upper)
    }

    // The literals that may be in and need not be.
    pub fn open(self) -> LiteralSet
        ensures { Difference self.upper self.lower result }
    {
        self.upper.difference(self.lower)
    }

    // Whether no literal is open. Then at most one set lies between the bounds.
    pub fn is_settled(self) -> bool
        ensures settled { IsTrue result ↔ (self.upper ⊑ self.lower) }
        ensures one { result ≡ true → (s : ASet) → Between self s → s ≡ self.lower }
    {
        self.upper.is_subset(self.lower)
    }

    // The first open literal in the order in which a search settles them.
    #[tactic(auto, using(crate::proofs::Spans::first_open))]
    pub fn first_open(self) -> Option<Literal>
        ensures { FirstOpen self result }
    {
        self.open().highest()
    }

    // The bounds of the sets between these that have the literal; the mirror of the next, at the other bound.
    pub fn include(self, literal: Literal) -> Bounds
        ensures between { Including self (named literal.code) result }
        ensures bounds { RaisesLower self (named literal.code) result }
    {
        Bounds {
            lower: self.lower.with(literal),
            upper: self.upper,
        }
    }

    // The bounds of the sets between these that lack the literal.
    pub fn exclude(self, literal: Literal) -> Bounds
        ensures between { Excluding self (named literal.code) result }
        ensures bounds { CutsUpper self (named literal.code) result }
    {
        Bounds {
            lower: self.lower,
            upper: self.upper.without(literal),
        }
    }
}
