// Small tables.
use crate::decisive::breadth;
use literals::{Condition, LiteralSet};
use tables::RuleRow;

fn atoms(word: u64) -> LiteralSet {
    LiteralSet {
        plus: word,
        minus: 0,
    }
}

// Two choices, a plain rule and a constraint: only the heads of the choices count.
#[test]
fn heads_of_choices(rt: HostRuntime) {
    let first = RuleRow::Choice {
        least: 1,
        greatest: 1,
        head: atoms(0x03),
        body: Condition::ALWAYS,
    };
    let second = RuleRow::Choice {
        least: 1,
        greatest: 1,
        head: atoms(0x0c),
        body: Condition::ALWAYS,
    };
    let plain = RuleRow::Plain {
        code: 8,
        body: Condition {
            wanted: atoms(1),
            absent: LiteralSet::EMPTY,
        },
    };
    let barred = RuleRow::Constraint {
        body: Condition {
            wanted: atoms(6),
            absent: LiteralSet::EMPTY,
        },
    };
    assert_eq!(rt; breadth(&[first, second, plain, barred]), 4);
}

// A literal under "not" in two rules counts once, and a row that makes no rule for nothing.
#[test]
fn different_literals(rt: HostRuntime) {
    let body = Condition {
        wanted: atoms(8),
        absent: LiteralSet { plus: 1, minus: 2 },
    };
    let plain = RuleRow::Plain { code: 2, body };
    let barred = RuleRow::Constraint { body };
    let no_rule = RuleRow::Plain {
        code: 128,
        body: Condition {
            wanted: LiteralSet::EMPTY,
            absent: atoms(4),
        },
    };
    assert_eq!(rt; breadth(&[plain, barred, no_rule]), 2);
    assert_eq!(rt; breadth(&[no_rule]), 0);
}
