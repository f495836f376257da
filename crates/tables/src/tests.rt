// The ends of each range.
use crate::filler::FIT_FILLER;
use crate::making::Record;
use crate::records::{Alternative, Penalty, Rule, Wish};
use crate::row::{AlternativeRow, PenaltyRow, RuleRow, WishRow};
use literals::{Condition, LiteralSet};

// Whether a row makes a record.
fn makes<R: Record + Copy>(row: R::Row) -> bool {
    R::new(row).is_ok()
}

fn plain(code: u8) -> bool {
    makes::<Rule>(RuleRow::Plain {
        code,
        body: Condition::ALWAYS,
    })
}

// A choice among three literals.
fn choice(least: u8, greatest: u8) -> bool {
    makes::<Rule>(RuleRow::Choice {
        least,
        greatest,
        head: LiteralSet { plus: 5, minus: 1 },
        body: Condition::ALWAYS,
    })
}

fn wish(rank: u8) -> bool {
    makes::<Wish>(WishRow {
        rank,
        body: Condition::ALWAYS,
    })
}

fn alternative(level: u8) -> bool {
    makes::<Alternative>(AlternativeRow {
        wish: 0,
        level,
        condition: Condition::ALWAYS,
    })
}

fn penalty(level: u8) -> bool {
    makes::<Penalty>(PenaltyRow {
        level,
        condition: Condition::ALWAYS,
    })
}

#[test]
fn codes(rt: HostRuntime) {
    assert_eq!(rt; plain(0), true);
    assert_eq!(rt; plain(127), true);
    assert_eq!(rt; plain(128), false);
}

#[test]
fn choices(rt: HostRuntime) {
    assert_eq!(rt; choice(0, 0), true);
    assert_eq!(rt; choice(3, 3), true);
    assert_eq!(rt; choice(3, 4), false);
    assert_eq!(rt; choice(2, 1), false);
}

#[test]
fn empty_heads(rt: HostRuntime) {
    let row = RuleRow::Choice {
        least: 0,
        greatest: 0,
        head: LiteralSet::EMPTY,
        body: Condition::ALWAYS,
    };
    assert_eq!(rt; makes::<Rule>(row), false);
}

#[test]
fn ranks(rt: HostRuntime) {
    assert_eq!(rt; wish(0), false);
    assert_eq!(rt; wish(1), true);
    assert_eq!(rt; wish(16), true);
    assert_eq!(rt; wish(17), false);
}

#[test]
fn levels_of_alternatives(rt: HostRuntime) {
    assert_eq!(rt; alternative(0), false);
    assert_eq!(rt; alternative(1), true);
    assert_eq!(rt; alternative(8), true);
    assert_eq!(rt; alternative(9), false);
}

#[test]
fn levels_of_penalties(rt: HostRuntime) {
    assert_eq!(rt; penalty(0), false);
    assert_eq!(rt; penalty(1), true);
    assert_eq!(rt; penalty(16), true);
    assert_eq!(rt; penalty(17), false);
}

#[test]
fn fillers(rt: HostRuntime) {
    assert_eq!(rt; makes::<Rule>(RuleRow::FILLER), false);
    assert_eq!(rt; makes::<Wish>(WishRow::FILLER), false);
    assert_eq!(rt; makes::<Alternative>(AlternativeRow::FILLER), false);
    assert_eq!(rt; makes::<Penalty>(PenaltyRow::FILLER), false);
    assert_eq!(rt; FIT_FILLER.is_consistent(), false);
}
