// The threshold memory, and the loader with its queue of requests.
#![tactic(auto)]

mod loader;
mod memory;

pub use loader::{GROUP_WORDS, Queue, Reload, Request, group_at, load_into, step_loader};
pub use memory::{CounterNumber, Dataset, MEMORY_WORDS, clear_memory, download, load};
