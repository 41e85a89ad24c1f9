// The bytes that the program prints: a page with the report of a run, both overflow blocks and the outputs.
#![tactic(auto)]

mod program;
mod report;

pub use program::{printed, rehearse};
pub use report::put_report;
