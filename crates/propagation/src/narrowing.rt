// All techniques together, until nothing changes.
ghost use Rattle.answer_sets.specs.Rules.{rules_of};
ghost use Rattle.literals.specs.Sets.{◌⊑◌};
ghost use Rattle.propagation.specs.Narrowing.{Narrowed, Lawful};
ghost use Rattle.std.specs.Prelude.{IfSome};

use crate::founded::founded;
use crate::pass::pass;
use picks::Bounds;
use tables::RuleRow;

// One pass over the rules and, where that changes nothing, what is founded.
fn narrow_once(rows: &[RuleRow], bounds: Bounds) -> Option<Bounds>
    ensures { Narrowed (Lawful (rules_of rows.now)) bounds result }
{
    let next = pass(rows, bounds)?;
    if next == bounds {
        Some(founded(rows, bounds))
    } else {
        Some(next)
    }
}

// Narrower bounds for the lawful fits: none is lost. None is given only where no lawful fit lies between the bounds.
pub fn narrow(rows: &[RuleRow], bounds: Bounds) -> Option<Bounds>
    ensures narrowed { Narrowed (Lawful (rules_of rows.now)) bounds result }
    ensures wide { IfSome result (λ n. n.lower ⊑ n.upper) }
{
    let mut n = bounds;
    while !n.are_crossed() {
        let next = narrow_once(rows, n)?;
        if next == n {
            return Some(n);
        }
        n = next;
    }
    None
}
