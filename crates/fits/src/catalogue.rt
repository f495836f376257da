// Catalogues: fits as the rows of a table.
ghost use Rattle.std.specs.Prelude.{◌≡◌, ◌⊎◌, Some, ◌↔◌, IsTrue};
ghost use Rattle.fits.specs.First.{After, First, Next};
ghost use Rattle.fits.specs.Listed.{Listed};

use crate::source::Source;
use literals::LiteralSet;
use picks::{Fit, Picks};

// Rows in any order, repeats allowed. The lawful fits are those whose set is a row; an inconsistent row counts for nothing.
#[derive(Clone, Copy)]
pub struct Catalogue<'a> {
    rows: &'a [LiteralSet],
}

impl<'a> Catalogue<'a> {
    pub fn new(rows: &'a [LiteralSet]) -> Catalogue<'a>
        ensures { result.rows.now ≡ rows.now }
    {
        Catalogue { rows }
    }
}

impl<'a> Source for Catalogue<'a> {
    ghost lawful = { λ c f. Listed c.rows.now f };

    fn next(&self, picks: Picks, after: Option<Fit>) -> Option<Fit> {
        let mut first: Option<Fit> = None;
        for row in self.rows {
            first = first_of(first, suiting(*row, picks, after));
        }
        first
    }
}

// The fit of the row, if it keeps the picks and comes after the given one.
fn suiting(row: LiteralSet, picks: Picks, after: Option<Fit>) -> Option<Fit>
    ensures { First (Next (λ f. f.literals ≡ row) picks after) result }
{
    Fit::try_from(row)
        .ok()
        .filter(|fit| picks.kept_by(*fit) && is_after(*fit, after))
}

// Whether the fit comes after the given one, if one is given.
fn is_after(fit: Fit, after: Option<Fit>) -> bool
    ensures { IsTrue result ↔ After after fit }
{
    after.is_none_or(|given| given < fit)
}

// The first of those that are given.
fn first_of(one: Option<Fit>, other: Option<Fit>) -> Option<Fit>
    ensures { First (λ f. (one ≡ Some f) ⊎ (other ≡ Some f)) result }
{
    match (one, other) {
        (Some(a), Some(b)) => Some(a.min(b)),
        (found, None) => found,
        (None, found) => found,
    }
}
