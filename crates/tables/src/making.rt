// Records made of rows, and the rows of records.
ghost use Rattle.std.specs.Prelude.{◌≡◌, Bool, Option};
ghost use Rattle.tables.specs.Rows.{makes_rule, makes_wish, makes_alternative, makes_penalty};
ghost use Rattle.tables.specs.Making.{rule_row, rule_of, wish_row, wish_of, alternative_row, alternative_of, penalty_row, penalty_of};
ghost use Rattle.tables.specs.Tables.{or_refused, Judged, Faithful};

use crate::records::{Alternative, Choice, Head, Penalty, Rule, Wish};
use crate::row::{AlternativeRow, PenaltyRow, Row, RuleRow, WishRow};
use literals::{Literal, RecordFault};

// What a valid row makes. A record determines its row and is determined by it: that ties both ways, so they stand in one trait,
// and not in `TryFrom` and `From`. Three of the four `new` have one form; a body for all would have to make a record of a row that
// is known to be valid, by a public function with a premise.
pub trait Record: Sized {
    type Row: Copy;

    // the test that a row has to pass, the record of a row that does, and the row of a record
    ghost makes: { Self.Row → Bool };

    ghost of: { Self.Row → Option Self };

    ghost row_of: { Self → Self.Row };

    // The record of a row, where it makes one.
    fn new(row: Self::Row) -> Result<Self, RecordFault>
        ensures made { result ≡ or_refused (of row) }
        ensures judged { Judged (makes row) row_of row result };

    // The row that makes this record.
    fn row(&self) -> Self::Row
        ensures row { result ≡ row_of self.now }
        ensures faithful { Faithful makes of row_of };
}

impl Record for Rule {
    type Row = RuleRow;

    ghost makes = { makes_rule };

    ghost of = { rule_of };

    ghost row_of = { rule_row };

    fn new(row: RuleRow) -> Result<Rule, RecordFault> {
        match row {
            RuleRow::Plain { code, body } => {
                let Some(literal) = Literal::new(code) else {
                    return Err(RecordFault::OutOfRange);
                };
                let head = Head::Plain(literal);
                Ok(Rule { head, body })
            }
            RuleRow::Constraint { body } => Ok(Rule {
                head: Head::Constraint,
                body,
            }),
            RuleRow::Choice {
                least,
                greatest,
                head,
                body,
            } => {
                if !row.makes_record() {
                    return Err(RecordFault::OutOfRange);
                }
                let choice = Choice {
                    least,
                    greatest,
                    head,
                };
                Ok(Rule {
                    head: Head::Choice(choice),
                    body,
                })
            }
        }
    }

    #[tactic(auto, using(crate::proofs::Faithfulness::rule_faithful))]
    fn row(&self) -> RuleRow {
        let body = self.body;
        match self.head {
            Head::Plain(literal) => RuleRow::Plain {
                code: literal.code(),
                body,
            },
            Head::Constraint => RuleRow::Constraint { body },
            Head::Choice(choice) => RuleRow::Choice {
                least: choice.least,
                greatest: choice.greatest,
                head: choice.head,
                body,
            },
        }
    }
}

impl Record for Wish {
    type Row = WishRow;

    ghost makes = { makes_wish };

    ghost of = { wish_of };

    ghost row_of = { wish_row };

    fn new(row: WishRow) -> Result<Wish, RecordFault> {
        if !row.makes_record() {
            return Err(RecordFault::OutOfRange);
        }
        let WishRow { rank, body } = row;
        Ok(Wish { rank, body })
    }

    #[tactic(auto, using(crate::proofs::Faithfulness::wish_faithful))]
    fn row(&self) -> WishRow {
        let Wish { rank, body } = *self;
        WishRow { rank, body }
    }
}

impl Record for Alternative {
    type Row = AlternativeRow;

    ghost makes = { makes_alternative };

    ghost of = { alternative_of };

    ghost row_of = { alternative_row };

    fn new(row: AlternativeRow) -> Result<Alternative, RecordFault> {
        if !row.makes_record() {
            return Err(RecordFault::OutOfRange);
        }
        Ok(Alternative {
            wish: row.wish,
            level: row.level,
            condition: row.condition,
        })
    }

    #[tactic(auto, using(crate::proofs::Faithfulness::alternative_faithful))]
    fn row(&self) -> AlternativeRow {
        AlternativeRow {
            wish: self.wish,
            level: self.level,
            condition: self.condition,
        }
    }
}

impl Record for Penalty {
    type Row = PenaltyRow;

    ghost makes = { makes_penalty };

    ghost of = { penalty_of };

    ghost row_of = { penalty_row };

    fn new(row: PenaltyRow) -> Result<Penalty, RecordFault> {
        if !row.makes_record() {
            return Err(RecordFault::OutOfRange);
        }
        let PenaltyRow { level, condition } = row;
        Ok(Penalty { level, condition })
    }

    #[tactic(auto, using(crate::proofs::Faithfulness::penalty_faithful))]
    fn row(&self) -> PenaltyRow {
        let Penalty { level, condition } = *self;
        PenaltyRow { level, condition }
    }
}
