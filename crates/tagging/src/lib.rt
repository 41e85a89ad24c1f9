// What an event tag answers and does.
#![tactic(auto)]

mod events;

pub use events::tag_crate;
