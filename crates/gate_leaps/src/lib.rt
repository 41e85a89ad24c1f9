// The twelve gates over so many ticks at once.
#![tactic(auto)]

mod leap;

pub use leap::{horizon, leap_gates, steady_gates};
