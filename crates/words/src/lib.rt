// Bits and fields in words: what the crates above decode and pack with.
#![tactic(auto)]

mod field;
mod made;
mod selection;

pub use field::{Field, bit, halves, nibble, put_nibble};
pub use made::{flags_word, from_bits, from_fields};
pub use selection::{DOWN, GATE, Selection, UP};
