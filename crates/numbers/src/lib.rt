// The signed number of 32 bits that two words hold, and the laws of numbers in two's complement at every width.
#![tactic(auto)]

mod signed;

pub use signed::join;
