// How many answer sets a table of rules leaves room for.
#![tactic(auto)]

mod decisive;
#[cfg(test)]
mod tests;

pub use decisive::breadth;
