// A fit: a consistent set of literals.
ghost use Rattle.std.specs.Prelude.{◌≡◌};
ghost use Rattle.picks.specs.Sound.{SoundFit};

use literals::LiteralSet;

mod calls;

// The ghost field says that both words have 64 bits and that no bit is set in both. So a fit is known by its literals, and
// by its place in the order.
#[derive(Clone, Copy, PartialEq, Eq, PartialOrd, Ord, Debug)]
pub struct Fit {
    literals: LiteralSet,
    ghost sound: { SoundFit literals },
}

impl Fit {
    pub fn literals(self) -> LiteralSet
        ensures { result ≡ self.literals }
    {
        self.literals
    }
}
