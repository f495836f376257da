// Tests on fits.
ghost use Rattle.std.specs.Prelude.{◌≡◌, Bool, true};
ghost use Rattle.fits.specs.Filters.{NonePasses};
ghost use Rattle.picks.specs.declared.fit.Fit.{Fit as AFit};

use picks::{Bounds, Fit};

// A test on fits. It may also rule out all fits between two bounds at once, so that a search can leave them out.
pub trait Filter {
    ghost passing: { Self → AFit → Bool };

    fn passes(&self, fit: Fit) -> bool
        ensures { result ≡ passing self.now fit };

    // True only if no fit between the bounds passes.
    fn is_hopeless(&self, bounds: Bounds) -> bool
        ensures { result ≡ true → NonePasses (passing self.now) bounds }
    {
        false
    }
}
