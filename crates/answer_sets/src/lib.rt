// Answer sets of tables of rules: which sets they are, and the least set by which they are told.
#![tactic(auto)]

mod answer_set;
mod closing;
mod rules;

pub use answer_set::is_answer_set;
pub use closing::{Reduct, least_set};
