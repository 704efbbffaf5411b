// The text of a report, in a lent array.
// A line is a template whose marks stand for numbers. Of the run and of the rules this crate knows what their contracts state, and nothing else.
#![tactic(auto)]

mod line;
pub mod report;
