// The rule book as a source of fits: its lawful fits are the answer sets of its rules.
#![tactic(auto)]

mod book;
mod search;

pub use book::RuleBook;
