// Sources of fits, filters and orders: what a session asks of them, and all that it may rest on. And catalogues, the simplest
// source.
#![tactic(auto)]

mod catalogue;
mod filter;
mod order;
mod source;
#[cfg(test)]
mod tests;

pub use catalogue::Catalogue;
pub use filter::Filter;
pub use order::Order;
pub use source::Source;
