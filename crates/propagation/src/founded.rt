// Foundedness: literals that the rules can only give in a circle are out.
ghost use Rattle.answer_sets.specs.AnswerSets.{AnswerSet};
ghost use Rattle.answer_sets.specs.Rules.{rules_of};
ghost use Rattle.propagation.specs.Narrowing.{Tighter, Lawful};

use answer_sets::Reduct;
use literals::LiteralSet;
use picks::Bounds;
use tables::RuleRow;

// The bounds of the answer sets: the upper one comes down to what the rules that are not surely barred can give from nothing.
// Often that has the whole upper bound; then one need not go on, which is why this is a loop of its own beside that of a least set.
// The second clause is the first for lawful fits, of which a round speaks.
pub(crate) fn founded(rows: &[RuleRow], bounds: Bounds) -> Bounds
    ensures answers { Tighter (AnswerSet (rules_of rows.now)) bounds result }
    ensures lawful { Tighter (Lawful (rules_of rows.now)) bounds result }
{
    let reduct = Reduct {
        rows,
        against: bounds.lower,
        chosen: bounds.upper,
    };
    let mut reached = LiteralSet::EMPTY;
    loop {
        let next = reduct.grow(reached);
        if bounds.upper.is_subset(next) {
            return bounds;
        }
        if next.is_subset(reached) {
            return Bounds {
                lower: bounds.lower,
                upper: bounds.upper.intersection(reached),
            };
        }
        reached = next;
    }
}
