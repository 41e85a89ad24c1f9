// The signals that a selection word chooses from, and whether a selected one is present.
ghost use Rattle.std.specs.Prelude.{◌≡◌};
ghost use Rattle.interlocks.specs.Interlock.{low_gates, meets, signals};

use counters::Counter;
use device::Crate;
use gates::Gate;
use lines::GATES;

// A word with the bit of every gate.
const ALL_GATES: u16 = (1 << GATES) - 1;

// The gates whose input was low at the last accepted tick; all at power-up. By ^, as in `lines::rises`.
fn low_gates(gatelevels: u16) -> u16
    ensures { result ≡ low_gates gatelevels }
{
    ALL_GATES ^ (ALL_GATES & gatelevels)
}

// The signals that selection word k of an output chooses from, in the order of the addresses.
#[tactic(auto, using(bools::proofs::Tests::tests), unfolding(crate::specs::Interlock::signals))]
pub fn signals(s: &Crate, k: u16) -> u16
    ensures { result ≡ signals s.now k }
{
    match k {
        0x00..=0x07 => counters::overflow_word(&s.counters, k, Counter::is_under),
        0x08..=0x0F => counters::overflow_word(&s.counters, k - 0x08, Counter::is_over),
        0x10 => gates::gate_bits(&s.gates, Gate::failed),
        0x11..=0x14 => watchdogs::error_word(&s.watchdogs, k - 0x11),
        _ => low_gates(s.status.gatelevels),
    }
}

// Whether some signal is selected and present.
pub fn meet(chosen: u16, present: u16) -> bool
    ensures { result ≡ meets chosen present }
{
    chosen & present != 0
}
