// A page of text, and numbers in digits on it.
#![tactic(auto)]

mod digits;
mod page;

pub use page::Page;
