// Examples.
use crate::literal::Literal;
use crate::literal_set::LiteralSet;
use crate::record_fault::RecordFault;
use std::test::Fail;

fn code_of(literal: Option<Literal>) -> Option<u8> {
    literal.map(|l| l.code())
}

fn literal(code: u8) -> Result<Literal, RecordFault> {
    Literal::new(code).ok_or(RecordFault::OutOfRange)
}

#[test]
fn codes_end_at_127(rt: HostRuntime) -> Result<(), Fail> {
    let last = literal(127)?;
    assert_eq!(rt; last.opposite().code(), 126);
    assert_eq!(rt; code_of(Literal::new(128)), None);
    Ok(())
}

#[test]
fn atoms_are_settled_first(rt: HostRuntime) {
    let set = LiteralSet {
        plus: 0b1010,
        minus: 1 << 63,
    };
    let negations = LiteralSet {
        plus: 0,
        minus: 1 << 63,
    };
    assert_eq!(rt; code_of(set.highest()), Some(6));
    assert_eq!(rt; code_of(negations.highest()), Some(127));
    assert_eq!(rt; code_of(set.first_difference(negations)), Some(6));
    assert_eq!(rt; code_of(set.first_difference(set)), None);
}
