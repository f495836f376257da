// Orders of fits.
ghost use Rattle.std.specs.Prelude.{◌≡◌, ℕ, Bool, true, List, length, slice_index};
ghost use Rattle.fits.specs.Orders.{Irreflexive, Transitive, NoneBetter, AllWorse, Alike};
ghost use Rattle.picks.specs.declared.fit.Fit.{Fit as AFit};

use picks::{Bounds, Fit};

// A relation "strictly better" between fits (a strict partial order), and a row of numbers for each fit, by which it is shown.
// The last three methods let a search skip many fits at once: `false` is always a right answer.
pub trait Order {
    ghost better: { Self → AFit → AFit → Bool };

    ghost row: { Self → AFit → List ℕ };

    // Whether `a` is strictly better than `b`.
    fn is_better(&self, a: Fit, b: Fit) -> bool
        ensures { result ≡ better self.now a b };

    // How many columns a row has, alike for every fit.
    fn column_count(&self) -> usize
        ensures { (f : AFit) → length (row self.now f) ≡ result };

    // The number in a column of the fit's row, 0 beyond the last.
    fn column(&self, fit: Fit, index: usize) -> u64
        ensures { result ≡ slice_index (row self.now fit) index };

    // True only if no fit between the bounds is better than `fit`.
    fn none_better(&self, bounds: Bounds, fit: Fit) -> bool
        ensures { result ≡ true → NoneBetter (better self.now) bounds fit }
    {
        false // one may be better
    }

    // True only if `fit` is better than every fit between the bounds.
    fn all_worse(&self, fit: Fit, bounds: Bounds) -> bool
        ensures { result ≡ true → AllWorse (better self.now) fit bounds }
    {
        false // one may be as good
    }

    // True only if `a` and `b` are bettered by the same fits, and better the same fits.
    fn are_alike(&self, a: Fit, b: Fit) -> bool
        ensures { result ≡ true → Alike (better self.now) a b }
    {
        false // a fit may tell them apart
    }

    ghost irreflexive: { (o : Self) → Irreflexive (better o) };

    ghost transitive: { (o : Self) → Transitive (better o) };
}
