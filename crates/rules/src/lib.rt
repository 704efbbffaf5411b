// The rules of one consensus among n processes: records, the message store, start and step.
// Every step on every group and every store is taken or refused by number. Knows nothing of files.
#![tactic(auto)]

pub mod course;
pub mod group;
pub mod process;
pub mod refusal;
pub mod size;
mod start;
pub mod step;
pub mod store;
pub mod take;
mod tally;
