// The word that a read of each register gives.
#![tactic(auto)]

mod reading;

pub use reading::word_in;
