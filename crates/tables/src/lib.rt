// Tables: rows of plain numbers, and the records that valid rows make.
#![tactic(auto)]

mod filler;
mod making;
mod records;
mod row;
mod table;
#[cfg(test)]
mod tests;

pub use filler::{FIT_FILLER, fillers_are_idle};
pub use making::Record;
pub use records::{Alternative, Choice, Head, Penalty, Rule, Wish};
pub use row::{AlternativeRow, PenaltyRow, Row, RuleRow, WishRow};
pub use table::Records;
