// Least sets, by going through the rules until nothing more is given.
ghost use Rattle.answer_sets.specs.AnswerSets.{LeastSet};
ghost use Rattle.answer_sets.specs.Closing.{ClosedBy, ClosedByAll};
ghost use Rattle.answer_sets.specs.Rules.{rules_of};
ghost use Rattle.literals.specs.Sets.{◌⊑◌};
ghost use Rattle.literals.specs.declared.literal_set.LiteralSet.{LiteralSet as ASet};

use crate::rules::given;
use literals::LiteralSet;
use tables::{Records, Rule, RuleRow};

// The rules of a table that no literal of `against` bars. Their choices take from `chosen`.
#[derive(Clone, Copy)]
pub struct Reduct<'a> {
    pub rows: &'a [RuleRow],
    pub against: LiteralSet,
    pub chosen: LiteralSet,
}

impl Reduct<'_> {
    // `set` with what one rule gives.
    fn step(&self, set: LiteralSet, rule: Rule) -> LiteralSet
        ensures grown { set ⊑ result }
        ensures least { (y : ASet) → ClosedBy self.now.against self.now.chosen y rule
            → set ⊑ y → result ⊑ y }
        ensures closed { (z : ASet) → z ⊑ set → result ⊑ z
            → ClosedBy self.now.against self.now.chosen z rule }
    {
        if rule.body.absent.is_disjoint(self.against) && rule.body.wanted.is_subset(set) {
            set.union(given(rule.head, self.chosen))
        } else {
            set
        }
    }

    // `set` with what each rule gives, one after another, each taken once.
    pub fn grow(&self, set: LiteralSet) -> LiteralSet
        ensures grown { set ⊑ result }
        ensures least { (y : ASet) → ClosedByAll self.now y → set ⊑ y → result ⊑ y }
        ensures closed { result ⊑ set → ClosedByAll self.now set }
    {
        Records::<Rule>::of(self.rows).fold(set, |got, rule| self.step(got, rule))
    }
}

// The least set of `set`.
pub fn least_set(rows: &[RuleRow], set: LiteralSet) -> LiteralSet
    ensures { LeastSet (rules_of rows.now) set result }
{
    let reduct = Reduct {
        rows,
        against: set,
        chosen: set,
    };
    let mut reached = LiteralSet::EMPTY;
    loop {
        let next = reduct.grow(reached);
        if next.is_subset(reached) {
            return reached;
        }
        reached = next;
    }
}
