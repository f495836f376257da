// Fits, the picks that they may have to keep, and the bounds between which they lie.
#![tactic(auto)]

mod bounds;
mod fit;
mod picks;
#[cfg(test)]
mod tests;

pub use bounds::Bounds;
pub use fit::Fit;
pub use picks::{Picks, Side};
