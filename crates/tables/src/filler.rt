// Fillers: rows that make no record, for the unused part of a table. A filler counts for nothing; only that a wish row keeps
// its place, so that a filler among wishes is still a wish that never matters: hand on just the wishes that were read.
ghost use Rattle.std.specs.Prelude.{◌≡◌, false, None};
ghost use Rattle.tables.specs.Rows.{makes_fit};
ghost use Rattle.tables.specs.Making.{rule_of, wish_of, alternative_of, penalty_of};
ghost use Rattle.tables.specs.Tables.{Idle};

use crate::row::{AlternativeRow, PenaltyRow, RuleRow, WishRow};
use literals::{Condition, LiteralSet};

// An atom with its strong negation, so no fit.
pub const FIT_FILLER: LiteralSet = LiteralSet { plus: 1, minus: 1 };

impl RuleRow {
    pub const FILLER: RuleRow = RuleRow::Plain {
        code: 255,
        body: Condition::ALWAYS,
    };
}

impl WishRow {
    pub const FILLER: WishRow = WishRow {
        rank: 0,
        body: Condition::ALWAYS,
    };
}

impl AlternativeRow {
    pub const FILLER: AlternativeRow = AlternativeRow {
        wish: 0,
        level: 0,
        condition: Condition::ALWAYS,
    };
}

impl PenaltyRow {
    pub const FILLER: PenaltyRow = PenaltyRow {
        level: 0,
        condition: Condition::ALWAYS,
    };
}

// That fillers make no record, and behind the other rows of a table change nothing.
pub fn fillers_are_idle()
    ensures rules { Idle rule_of RuleRow.FILLER }
    ensures wishes { wish_of WishRow.FILLER ≡ None }
    ensures alternatives { Idle alternative_of AlternativeRow.FILLER }
    ensures penalties { Idle penalty_of PenaltyRow.FILLER }
    ensures fits { makes_fit FIT_FILLER ≡ false }
{}
