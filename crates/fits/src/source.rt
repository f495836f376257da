// Where fits come from.
ghost use Rattle.fits.specs.First.{First, Next, NextPassing};
ghost use Rattle.picks.specs.declared.fit.Fit.{Fit as AFit};

use crate::filter::Filter;
use picks::{Fit, Picks};

// A collection of fits, its lawful fits. `next` is the one function that a source must have. The picks stay two parameters with
// the fit, and no struct, since they stand while the fit goes on.
pub trait Source {
    ghost lawful: { Self → AFit → Type 0 };

    // The first lawful fit that keeps the picks: of all, or after the given fit, which need not be lawful.
    fn next(&self, picks: Picks, after: Option<Fit>) -> Option<Fit>
        ensures { First (Next (lawful self.now) picks after) result };

    // The same among the fits that pass. A source that can rule out many fits at once has a body of its own.
    fn next_passing<F: Filter>(&self, picks: Picks, after: Option<Fit>, filter: &F) -> Option<Fit>
        ensures { First (NextPassing (lawful self.now) (F.passing filter.now) picks after) result }
    {
        let mut from = after;
        while let Some(fit) = self.next(picks, from) {
            if filter.passes(fit) {
                return Some(fit);
            }
            from = Some(fit);
        }
        None
    }
}
