// Watchdogs over so many ticks at once, without a rise.
ghost use Rattle.std.specs.Prelude.{◌≡◌};
ghost use Rattle.watchdogs.specs.Leap.{leap_watchdogs, value_after, watchdog_after};

use crate::watchdog::{TOP, Watchdog};
use lines::INPUTS;

// The ticks since the last rise after k more, at most TOP.
fn value_after(k: u32, value: u32) -> u32
    ensures { result ≡ value_after k value }
{
    value.saturating_add(k).min(TOP)
}

// A watchdog k ticks on: the last value, the largest, decides the error.
#[tactic(auto, unfolding(crate::specs::Leap::watchdog_after))]
fn watchdog_after(w: Watchdog, k: u32, timeout: u16) -> Watchdog
    ensures { result ≡ watchdog_after k timeout w }
{
    w.with_value(value_after(k, w.value), timeout)
}

// All watchdogs, k ticks on.
#[tactic(auto, unfolding(crate::specs::Leap::leap_watchdogs))]
pub fn leap_watchdogs(watchdogs: &mut [Watchdog; INPUTS], k: u32, timeout: u16)
    ensures { watchdogs.new ≡ leap_watchdogs k timeout watchdogs.old }
{
    lists::step_each(watchdogs, |_, w| watchdog_after(w, k, timeout));
}
