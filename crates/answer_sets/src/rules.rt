// Single rules.
ghost use Rattle.answer_sets.specs.Rules.{HeadHolds, Satisfies, Gives};
ghost use Rattle.literals.specs.Sets.{Lit, In};
ghost use Rattle.std.specs.Prelude.{◌↔◌, IsTrue};

use literals::LiteralSet;
use tables::{Head, Rule};

// Whether the head holds in the set.
fn head_holds(head: Head, set: LiteralSet) -> bool
    ensures { IsTrue result ↔ HeadHolds head set }
{
    match head {
        Head::Plain(literal) => set.has(literal),
        Head::Constraint => false,
        Head::Choice(choice) => {
            let count = choice.head.count_common(set);
            u32::from(choice.least) <= count && count <= u32::from(choice.greatest)
        }
    }
}

// Whether the set satisfies the rule.
pub(crate) fn satisfies(set: LiteralSet, rule: Rule) -> bool
    ensures { IsTrue result ↔ Satisfies set rule }
{
    !rule.body.holds(set) || head_holds(rule.head, set)
}

// The literals that a head gives, where choices take from `chosen`.
pub(crate) fn given(head: Head, chosen: LiteralSet) -> LiteralSet
    ensures only { (k : Lit) → In result k → Gives head chosen k }
    ensures all { (k : Lit) → Gives head chosen k → In result k }
{
    match head {
        Head::Plain(literal) => LiteralSet::from(literal),
        Head::Constraint => LiteralSet::EMPTY,
        Head::Choice(choice) => choice.head.intersection(chosen),
    }
}
