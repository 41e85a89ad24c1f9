// So many ticks of the crate at once, where nothing but test signals, counts, watchdogs and PREPARE timers moves.
#![tactic(auto)]

mod leaping;

pub use leaping::{leap, stretch};
