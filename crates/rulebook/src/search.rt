// The search for the first answer set between two bounds. Literals are settled one after another, atoms from the highest down
// and then strong negations, each left out first and then taken in: so fits come in their order.
ghost use Rattle.answer_sets.specs.AnswerSets.{AnswerSet};
ghost use Rattle.answer_sets.specs.Rules.{rules_of};
ghost use Rattle.fits.specs.First.{First, NextPassing};
ghost use Rattle.rulebook.specs.Finding.{SuitsAt, SuitsBetween, SuitsAfter, Doubtful};

use answer_sets::is_answer_set;
use fits::Filter;
use literals::LiteralSet;
use picks::{Bounds, Fit, Picks};
use propagation::narrow;
use tables::RuleRow;

// A search of a table of rules for the answer sets that pass a filter.
#[derive(Drop)]
pub(crate) struct Search<'a, F> {
    pub(crate) rows: &'a [RuleRow],
    pub(crate) filter: &'a F,
}

impl<'a, F: Filter> Search<'a, F> {
    // The first answer set that keeps the picks, passes, and comes after the given fit, if one is given. The picks stand while the
    // fit goes on, so they are two parameters.
    pub(crate) fn first_after(&self, picks: Picks, after: Option<Fit>) -> Option<Fit>
        ensures { First
            (NextPassing (λ f. AnswerSet (rules_of self.now.rows.now) f.literals)
            (F.passing self.now.filter.now) picks after)
            result }
    {
        let bounds = Bounds::from(picks);
        match after {
            None => self.settle(bounds),
            Some(given) => self.settle_after(given, narrow(self.rows, bounds)?),
        }
    }

    // The first answer set between the bounds that passes and comes after the given fit. It goes down along the given fit
    // without propagation, and on the way back it searches, from the lowest literal up, what agrees with the fit above a literal
    // and has that literal while the fit has not.
    fn settle_after(&self, given: Fit, bounds: Bounds) -> Option<Fit>
        ensures { First
            (SuitsAfter (rules_of self.now.rows.now) (F.passing self.now.filter.now) given bounds)
            result }
    {
        let literal = doubtful(given, bounds).highest()?;
        if given.literals().has(literal) {
            return self.settle_after(given, bounds.include(literal));
        }
        // An `if let`, here and below: within the recursion the closure of an `or_else` would need a contract of its own.
        if let Some(fit) = self.settle_after(given, bounds.exclude(literal)) {
            return Some(fit);
        }
        self.settle(bounds.include(literal))
    }

    // The first answer set between the bounds that passes.
    fn settle(&self, bounds: Bounds) -> Option<Fit>
        ensures { First
            (SuitsBetween (rules_of self.now.rows.now) (F.passing self.now.filter.now) bounds)
            result }
    {
        let n = narrow(self.rows, bounds)?;
        if self.filter.is_hopeless(n) {
            return None;
        }
        let Some(literal) = n.first_open() else {
            return self.suiting(n.lower);
        };
        if let Some(fit) = self.settle(n.exclude(literal)) {
            return Some(fit);
        }
        self.settle(n.include(literal))
    }

    // The fit of the set, if it is an answer set that passes.
    fn suiting(&self, set: LiteralSet) -> Option<Fit>
        ensures { First
            (SuitsAt (rules_of self.now.rows.now) (F.passing self.now.filter.now) set)
            result }
    {
        Fit::try_from(set).ok().filter(|fit| self.filter.passes(*fit)
            && is_answer_set(self.rows, set))
    }
}

// The literals in which a set between the bounds may differ from the given fit.
fn doubtful(given: Fit, bounds: Bounds) -> LiteralSet
    ensures { Doubtful given.literals bounds result }
{
    let set = given.literals();
    bounds
        .upper
        .difference(set)
        .union(set.difference(bounds.lower))
}
