// Schedule files, and the run over them.
// The file is lent and read in place; no step list is kept. Of the rules this crate knows what their contracts state, and nothing else.
#![tactic(auto)]

pub mod counts;
pub mod fault;
pub mod file;
mod first;
pub mod header;
mod letter;
mod lf;
pub mod line;
mod number;
mod part;
mod reader;
pub mod run;
mod section;
mod values;
