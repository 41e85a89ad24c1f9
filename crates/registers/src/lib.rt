// The calls on a crate, and the refusals of each.
#![tactic(auto)]

mod calls;

pub use calls::{download, power_up, read, scan, tag, tick, write};
