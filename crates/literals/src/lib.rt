// Sets of literals as pairs of 64-bit words, and conditions on them.
#![tactic(auto)]

mod condition;
mod literal;
mod literal_set;
mod numbered;
mod record_fault;
#[cfg(test)]
mod tests;
mod words;

pub use condition::Condition;
pub use literal::Literal;
pub use literal_set::LiteralSet;
pub use numbered::Numbered;
pub use record_fault::RecordFault;
pub use words::highest_bit;
