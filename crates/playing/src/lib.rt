// What the programs that are run only share: traces of files played to a crate, and pages on standard output.
#![tactic(auto)]

mod file;
mod page;

pub use file::{begin, load, open_file, play_often, run_often};
pub use page::write;
