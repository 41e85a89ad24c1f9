// The test signals over so many ticks at once: their phases, and the rises that they give.
ghost use Rattle.std.specs.Prelude.{◌≡◌, ◌<◌};
ghost use Rattle.lists.specs.Table.{tabulate};
ghost use Rattle.lines.specs.Leap.{leap_phases, low_phases, phase_after, rises_in};

use crate::levels::INPUTS;
use crate::lines::{LIMIT, SIGNALS, Signal};
use std::array;

impl Signal {
    // A phase k ticks on.
    #[tactic(auto, unfolding(crate::specs::Leap::phase_after))]
    fn phase_after(self, k: u32, phase: u32) -> u32
        ensures { result ≡ phase_after k self.number phase }
    {
        (self.phase_total(k, phase) % LIMIT) as u32
    }
}

// All phases, k ticks on.
#[tactic(auto, unfolding(crate::specs::Leap::leap_phases))]
pub fn leap_phases(phases: &mut [u32; SIGNALS], k: u32)
    ensures { phases.new ≡ leap_phases k phases.old }
{
    lists::step_each(
        phases,
        |number: usize, phase: u32| -> u32
            requires { number < 9 }
        { Signal { number }.phase_after(k, phase) },
    );
}

// The rises of selection value u in k ticks.
#[tactic(auto, unfolding(crate::specs::Leap::rises_in))]
fn rises_at(phases: &[u32; SIGNALS], k: u32, u: usize) -> u32
    requires { u < 64 }
    ensures { result ≡ rises_in k phases.now u }
{
    if u <= INPUTS {
        return 0;
    }
    let number = u - INPUTS - 1;
    (Signal { number }.phase_total(k, phases[number]) / LIMIT) as u32
}

// The rises of each selection value in k ticks in which no input rises.
pub fn rises_in(phases: &[u32; SIGNALS], k: u32) -> [u32; 64]
    ensures { result ≡ tabulate 64 (rises_in k phases.now) }
{
    array::from_fn(|u| rises_at(phases, k, u))
}

// Whether every phase is below 125,000.
pub fn low_phases(phases: &[u32; SIGNALS]) -> bool
    ensures { result ≡ low_phases phases.now }
{
    phases.iter().all(|phase| u64::from(*phase) < LIMIT)
}
