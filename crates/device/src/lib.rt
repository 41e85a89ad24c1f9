// The crate as one value, and its registers by address.
#![tactic(auto)]

mod map;
mod state;

pub use map::{GateWord, ReadoutWord, Register, SettingWord, SharedWord, decode};
pub use state::{Common, Crate, Events, OUTPUT_WORDS, OUTPUTS, Settings, Status};
