// What a body or an alternative asks of a set of literals.
ghost use Rattle.literals.specs.Conditions.{Holds};
ghost use Rattle.std.specs.Prelude.{◌↔◌, IsTrue};

use crate::literal_set::LiteralSet;

// Literals wanted in a set, and literals that must be absent from it (those under "not").
#[derive(Clone, Copy, PartialEq, Eq, Debug)]
pub struct Condition {
    pub wanted: LiteralSet,
    pub absent: LiteralSet,
}

impl Condition {
    // Asks nothing, and so always holds.
    pub const ALWAYS: Condition = Condition {
        wanted: LiteralSet::EMPTY,
        absent: LiteralSet::EMPTY,
    };

    // Whether the set has every wanted literal and none of the absent ones.
    pub fn holds(self, set: LiteralSet) -> bool
        ensures { IsTrue result ↔ Holds self set }
    {
        self.wanted.is_subset(set) && self.absent.is_disjoint(set)
    }
}
