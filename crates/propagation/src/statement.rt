// What may hold in a set of literals: a condition, a head.
ghost use Rattle.std.specs.Prelude.{IsTrue};
ghost use Rattle.literals.specs.declared.literal_set.LiteralSet.{LiteralSet as ASet};
ghost use Rattle.propagation.specs.Narrowing.{NoneBetween};

use picks::Bounds;

pub(crate) trait Statement: Sized {
    ghost holds: { Self → ASet → Type 0 };

    // True only if it holds in no set between the bounds.
    fn fails(self, bounds: Bounds) -> bool
        ensures { IsTrue result → NoneBetween (holds self) bounds };
}
