// Rows of tables: plain numbers, of any value that their types hold. A row that makes no record counts for nothing; among
// wishes it keeps its place, since alternatives name wishes by their place.
// A row of a table of fits is a `LiteralSet`: it makes a fit where it is consistent.
ghost use Rattle.std.specs.Prelude.{◌≡◌, Bool};
ghost use Rattle.tables.specs.Rows.{makes_rule, makes_wish, makes_alternative, makes_penalty, makes_fit};

use literals::{Condition, LiteralSet};

// A row of a table, which may make a record.
pub trait Row {
    ghost makes: { Self → Bool };

    // Whether the row makes a record.
    fn makes_record(&self) -> bool
        ensures { result ≡ makes self.now };
}

// A rule: what follows where its body holds.
#[derive(Clone, Copy, PartialEq, Eq, Debug)]
pub enum RuleRow {
    // the literal of a code is in the set
    Plain {
        code: u8,
        body: Condition,
    },
    // the body does not hold
    Constraint {
        body: Condition,
    },
    // of the head's literals at least `least` and at most `greatest` are in the set
    Choice {
        least: u8,
        greatest: u8,
        head: LiteralSet,
        body: Condition,
    },
}

// A wish: its rank, 1 counting most, and where it applies.
#[derive(Clone, Copy, PartialEq, Eq, Debug)]
pub struct WishRow {
    pub rank: u8,
    pub body: Condition,
}

// An alternative of the wish with the number `wish` in its table, from 0, as the order of a text tells it: how good it is, level 1
// being best, and when it holds.
#[derive(Clone, Copy, PartialEq, Eq, Debug)]
pub struct AlternativeRow {
    pub wish: usize,
    pub level: u8,
    pub condition: Condition,
}

// A penalty: its level, 1 counting most, and when it is due.
#[derive(Clone, Copy, PartialEq, Eq, Debug)]
pub struct PenaltyRow {
    pub level: u8,
    pub condition: Condition,
}

impl Row for RuleRow {
    ghost makes = { makes_rule };

    fn makes_record(&self) -> bool {
        match *self {
            RuleRow::Plain { code, body: _ } => code <= 127,
            RuleRow::Constraint { body: _ } => true,
            RuleRow::Choice {
                least,
                greatest,
                head,
                body: _,
            } => {
                let size = head.len();
                size >= 1 && least <= greatest && u32::from(greatest) <= size
            }
        }
    }
}

impl Row for WishRow {
    ghost makes = { makes_wish };

    fn makes_record(&self) -> bool {
        (1..=16).contains(&self.rank)
    }
}

impl Row for AlternativeRow {
    ghost makes = { makes_alternative };

    fn makes_record(&self) -> bool {
        (1..=8).contains(&self.level)
    }
}

impl Row for PenaltyRow {
    ghost makes = { makes_penalty };

    fn makes_record(&self) -> bool {
        (1..=16).contains(&self.level)
    }
}

// The row of a fit.
impl Row for LiteralSet {
    ghost makes = { makes_fit };

    fn makes_record(&self) -> bool {
        self.is_consistent()
    }
}
