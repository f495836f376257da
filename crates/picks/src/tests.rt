// Examples.
use crate::bounds::Bounds;
use crate::fit::Fit;
use crate::picks::{Picks, Side};
use literals::{Literal, LiteralSet, Numbered, RecordFault};
use std::test::Fail;

fn literal(code: u8) -> Result<Literal, RecordFault> {
    Literal::new(code).ok_or(RecordFault::OutOfRange)
}

#[test]
fn an_inconsistent_fit_is_refused(rt: HostRuntime) -> Result<(), Fail> {
    match Fit::try_from(LiteralSet { plus: 6, minus: 12 }) {
        Ok(_) => Err(Fail::new("atom 2 and its strong negation")),
        Err(fault) => {
            assert_eq!(rt; fault.number(), 4);
            assert_eq!(rt; fault.line(), 0);
            Ok(())
        }
    }
}

#[test]
fn picks_stay_sound(rt: HostRuntime) -> Result<(), Fail> {
    let atom = literal(2)?;
    let Some(picks) = Picks::new().with(atom, Side::Required) else {
        return Err(Fail::new("nothing was picked"));
    };
    assert!(rt; picks.exclude(atom).is_none());
    assert!(rt; picks.require(atom.opposite()).is_none());
    let Some(both) = picks.exclude(atom.opposite()) else {
        return Err(Fail::new("an excluded literal bars nothing"));
    };
    let fit = Fit::try_from(LiteralSet { plus: 3, minus: 0 })?;
    assert!(rt; both.kept_by(fit));
    assert!(rt; Bounds::from(both).contains(fit.literals()));
    assert_eq!(rt; both.without(atom).required().len(), 0);
    Ok(())
}
