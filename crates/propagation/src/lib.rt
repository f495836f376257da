// Narrower bounds for the answer sets of a table of rules. A search asks for them at every step, so that it need not try what
// the rules have settled. Nothing between the bounds may be lost: that is all that is promised. One technique a file. The
// bounds are a parameter of each function and no field beside the rows: every step has bounds of its own.
#![tactic(auto)]

mod founded;
mod heads;
mod narrowing;
mod pass;
mod rules;
mod statement;
mod turn;

pub use narrowing::narrow;
