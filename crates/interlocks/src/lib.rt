// The six interlock outputs, and the scan of their selection words.
#![tactic(auto)]

mod scan;
mod signals;

pub use scan::{OutputScan, outputs, scan_outputs};
