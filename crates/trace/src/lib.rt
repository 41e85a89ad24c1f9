// Traces: the run of a trace with a budget of ticks, and its report.
#![tactic(auto)]

mod running;

use records::Stop;
pub use running::run;

// What a run tells: why and before which record it stopped, the ticks used, the records passed, and how many of these were refused.
#[derive(Clone, Copy)]
pub struct Report {
    pub stop: Stop,
    // the offset of the next record
    pub next: usize,
    pub ticks: u64,
    pub records: usize,
    pub refused: usize,
}
