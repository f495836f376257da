// Picks: literals that a fit has to have, and literals that it must not have.
ghost use Rattle.std.specs.Prelude.{◌≡◌};
ghost use Rattle.picks.specs.Sound.{SoundPicks};

use literals::LiteralSet;

mod calls;

// On which side a literal is picked.
#[derive(Clone, Copy, PartialEq, Eq, Debug)]
pub enum Side {
    Required,
    Excluded,
}

// The ghost field says that no literal is on both sides, and that no atom is required together with its strong negation.
#[derive(Clone, Copy, PartialEq, Eq, Debug)]
pub struct Picks {
    required: LiteralSet,
    excluded: LiteralSet,
    ghost sound: { SoundPicks required excluded },
}

impl Picks {
    pub fn required(self) -> LiteralSet
        ensures { result ≡ self.required }
    {
        self.required
    }

    pub fn excluded(self) -> LiteralSet
        ensures { result ≡ self.excluded }
    {
        self.excluded
    }
}
