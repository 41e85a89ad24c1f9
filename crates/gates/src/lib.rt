// Gates: the logic of one, and all twelve in one pass.
#![tactic(auto)]

mod gate;

pub use gate::{Gate, GateState, change_gates, gate_bits, output_of, state_word};
