// What a tick does.
#![tactic(auto)]

mod ticking;

pub use ticking::tick_crate;
