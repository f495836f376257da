// Examples.
ghost use Rattle.std.specs.Prelude.{nat_lt};

use crate::catalogue::Catalogue;
use crate::filter::Filter;
use crate::source::Source;
use literals::{Literal, LiteralSet, RecordFault};
use picks::{Fit, Picks};
use std::test::Fail;

// {a, b}, {b}, a row of atom c with its strong negation, and {b} again.
const ROWS: [LiteralSet; 4] = [
    LiteralSet { plus: 3, minus: 0 },
    LiteralSet { plus: 2, minus: 0 },
    LiteralSet { plus: 4, minus: 4 },
    LiteralSet { plus: 2, minus: 0 },
];

// Lets pass what has a `plus` above a number.
#[derive(Drop)]
struct Above {
    plus: u64,
}

impl Filter for Above {
    ghost passing = { λ s f. nat_lt s.plus f.literals.plus };

    fn passes(&self, fit: Fit) -> bool {
        self.plus < fit.literals().plus
    }
}

fn plus_of(fit: Option<Fit>) -> Option<u64> {
    fit.map(|f| f.literals().plus)
}

#[test]
fn rows_come_in_order_and_once(rt: HostRuntime) {
    let rows = ROWS;
    let catalogue = Catalogue::new(&rows);
    let first = catalogue.next(Picks::new(), None);
    assert_eq!(rt; plus_of(first), Some(2));
    let second = catalogue.next(Picks::new(), first);
    assert_eq!(rt; plus_of(second), Some(3));
    assert_eq!(rt; plus_of(catalogue.next(Picks::new(), second)), None);
}

#[test]
fn picks_are_kept(rt: HostRuntime) -> Result<(), Fail> {
    let rows = ROWS;
    let catalogue = Catalogue::new(&rows);
    let atom = Literal::new(0).ok_or(RecordFault::OutOfRange)?;
    let Some(with) = Picks::new().require(atom) else {
        return Err(Fail::new("nothing was picked"));
    };
    assert_eq!(rt; plus_of(catalogue.next(with, None)), Some(3));
    assert_eq!(rt;
        plus_of(catalogue.next_passing(Picks::new(), None, &Above { plus: 2 })),
        Some(3)
    );
    assert_eq!(rt;
        plus_of(catalogue.next_passing(Picks::new(), None, &Above { plus: 3 })),
        None
    );
    Ok(())
}
