// What a write answers and does.
#![tactic(auto)]

mod writing;

pub use writing::{request, write_at};
