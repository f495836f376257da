// Picking and releasing literals.
ghost use Rattle.std.specs.Prelude.{◌≡◌, ◌↔◌, IsTrue};
ghost use Rattle.picks.specs.Picking.{Picked, Keeps, With, Released, KnownBySides};
ghost use Rattle.literals.specs.Sets.{Lit, named};
ghost use Rattle.picks.specs.declared.picks.Side.TheVariants.{Required, Excluded};

use super::{Picks, Side};
use crate::fit::Fit;
use literals::{Literal, LiteralSet};

impl Picks {
    // No picks.
    pub fn new() -> Picks
        ensures { (k : Lit) → Picked result k → ⊥ }
    {
        Picks {
            required: LiteralSet::EMPTY,
            excluded: LiteralSet::EMPTY,
        }
    }

    // Whether the literal is on either side.
    pub fn is_picked(self, literal: Literal) -> bool
        ensures { IsTrue result ↔ Picked self (named literal.code) }
    {
        self.required.has(literal) || self.excluded.has(literal)
    }

    // The picks with one required literal more: none if the literal is picked already, or its strong negation is required.
    pub fn require(self, literal: Literal) -> Option<Picks>
        ensures { With self Required (named literal.code) result }
    {
        if self.is_picked(literal) {
            return None;
        }
        if self.required.has(literal.opposite()) {
            return None;
        }
        Some(Picks {
            required: self.required.with(literal),
            excluded: self.excluded,
        })
    }

    // The picks with one excluded literal more: none if the literal is picked already.
    pub fn exclude(self, literal: Literal) -> Option<Picks>
        ensures { With self Excluded (named literal.code) result }
    {
        if self.is_picked(literal) {
            return None;
        }
        Some(Picks {
            required: self.required,
            excluded: self.excluded.with(literal),
        })
    }

    // The picks with one literal more on a side: none if it cannot be there. The sides differ in what bars a literal, so a call of
    // the one or the other is plainer than a side's own step handed in.
    pub fn with(self, literal: Literal, side: Side) -> Option<Picks>
        ensures { With self side (named literal.code) result }
    {
        match side {
            Side::Required => self.require(literal),
            Side::Excluded => self.exclude(literal),
        }
    }

    // The picks without the literal, on whichever side it is.
    pub fn without(self, literal: Literal) -> Picks
        ensures { Released self (named literal.code) result }
    {
        Picks {
            required: self.required.without(literal),
            excluded: self.excluded.without(literal),
        }
    }

    // Whether the fit has every required literal and no excluded one.
    pub fn kept_by(self, fit: Fit) -> bool
        ensures { IsTrue result ↔ Keeps self fit }
    {
        let literals = fit.literals();
        self.required.is_subset(literals) && self.excluded.is_disjoint(literals)
    }

    // Whether the picks are the same, as `==` tells.
    #[tactic(auto, using(crate::proofs::Sides::known_by_sides))]
    pub fn is_same(self, other: Picks) -> bool
        ensures same { IsTrue result ↔ (self ≡ other) }
        ensures known { KnownBySides }
    {
        self == other
    }
}
