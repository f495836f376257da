// Rule books.
ghost use Rattle.std.specs.Prelude.{◌≡◌, true};
ghost use Rattle.answer_sets.specs.AnswerSets.{AnswerSet};
ghost use Rattle.answer_sets.specs.Rules.{rules_of};

use crate::search::Search;
use fits::{Filter, Source};
use picks::{Fit, Picks};
use tables::RuleRow;

// The rules of a table. A row that makes no rule counts for nothing. The lawful fits are the answer sets of the rules.
#[derive(Clone, Copy)]
pub struct RuleBook<'a> {
    rows: &'a [RuleRow],
}

impl<'a> RuleBook<'a> {
    pub fn new(rows: &'a [RuleRow]) -> RuleBook<'a>
        ensures { result.rows.now ≡ rows.now }
    {
        RuleBook { rows }
    }
}

// Lets every fit pass.
#[derive(Drop)]
struct Everything;

impl Filter for Everything {
    ghost passing = { λ _ _. true };

    fn passes(&self, _fit: Fit) -> bool {
        true
    }
}

impl<'a> Source for RuleBook<'a> {
    ghost lawful = { λ b f. AnswerSet (rules_of b.rows.now) f.literals };

    fn next(&self, picks: Picks, after: Option<Fit>) -> Option<Fit> {
        self.next_passing(picks, after, &Everything)
    }

    fn next_passing<F: Filter>(&self, picks: Picks, after: Option<Fit>, filter: &F) -> Option<Fit> {
        let search = Search {
            rows: self.rows,
            filter,
        };
        search.first_after(picks, after)
    }
}
