// Making and comparing fits.
ghost use Rattle.std.specs.Prelude.{◌≡◌, ◌<◌, ◌↔◌, IsTrue};
ghost use Rattle.picks.specs.Fits.{place, FitOf, KnownByLiterals, KnownByPlace, PlacesInOrder};

use super::Fit;
use literals::{LiteralSet, RecordFault};

// The fit of a consistent set.
impl TryFrom<LiteralSet> for Fit {
    type Error = RecordFault;

    ghost try_from_gives = { FitOf };

    fn try_from(literals: LiteralSet) -> Result<Fit, RecordFault> {
        if literals.is_consistent() {
            Ok(Fit { literals })
        } else {
            Err(RecordFault::Inconsistent)
        }
    }
}

impl Fit {
    // Whether this fit comes before `other`, as `<` tells: by `plus` as a number, then by `minus`.
    pub fn is_before(self, other: Fit) -> bool
        ensures earlier { IsTrue result ↔ (place self < place other) }
        ensures ordered { PlacesInOrder }
    {
        self < other
    }

    // Whether the fits are the same, as `==` tells.
    pub fn is_same(self, other: Fit) -> bool
        ensures same { IsTrue result ↔ (self ≡ other) }
        ensures known { KnownByLiterals }
        ensures placed { KnownByPlace }
    {
        self == other
    }
}
