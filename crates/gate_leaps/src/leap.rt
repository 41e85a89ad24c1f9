// Gates over so many ticks at once, which leave each in its state.
ghost use Rattle.std.specs.Prelude.{◌≡◌};
ghost use Rattle.gate_leaps.specs.Leap.{gate_after, leap_gates, steady_gates};
ghost use Rattle.gate_leaps.specs.Leap.{horizon as leap_horizon, settled as leap_settled, sooner as leap_sooner, stays as leap_stays, steady as leap_steady};

use gates::{Gate, GateState, output_of};
use lines::GATES;

// A stretch as a gate sees it: so many ticks at the level of its input.
#[derive(Clone, Copy)]
struct Stay {
    ticks: u32,
    high: bool,
}

// The gate with its timer k ticks on.
#[tactic(auto, unfolding(crate::specs::Leap::gate_after))]
fn gate_after(mut g: Gate, k: u32) -> Gate
    ensures { result ≡ gate_after k g }
{
    if g.state == GateState::Prepare {
        g.timer = g.timer.saturating_sub(k);
    }
    g
}

// All gates, k ticks on.
#[tactic(auto, unfolding(crate::specs::Leap::leap_gates))]
pub fn leap_gates(gates: &mut [Gate; GATES], k: u32)
    ensures { gates.new ≡ leap_gates k gates.old }
{
    lists::step_each(gates, |_, g| gate_after(g, k));
}

impl Stay {
    // Whether no pulse waits, and prepare signal and output are those of the last tick.
    fn finds_settled(self, g: Gate) -> bool
        ensures { result ≡ leap_settled self.high g }
    {
        let signal = g.lastprepare == g.prepare;
        let shown = g.output == output_of(g.state, self.high);
        signal && shown && !g.preparepulse && !g.recoverpulse
    }

    // Whether the state stays.
    fn keeps_state(self, g: Gate) -> bool
        ensures { result ≡ leap_stays g.state self.ticks self.high g }
    {
        match g.state {
            GateState::Idle => !g.mode && !self.high,
            GateState::Prepare => self.ticks < g.timer && !self.high,
            GateState::Open => self.high,
            GateState::Waiting => g.prepare && !self.high,
            GateState::Error => !g.recover,
            GateState::Recover => g.recover,
            GateState::Direct => g.mode,
        }
    }

    #[tactic(auto, unfolding(crate::specs::Leap::steady))]
    fn is_steady(self, g: Gate) -> bool
        ensures { result ≡ leap_steady self.ticks self.high g }
    {
        self.finds_settled(g) && self.keeps_state(g)
    }
}

// Whether all gates stay for k ticks at these levels.
pub fn steady_gates(gates: &[Gate; GATES], k: u32, levels: u16) -> bool
    ensures { result ≡ steady_gates k levels gates.now }
{
    gates.iter().enumerate().all(|(i, g)| {
        let stay = Stay {
            ticks: k,
            high: words::bit(levels, i),
        };
        stay.is_steady(*g)
    })
}

// At most k ticks, and in PREPARE fewer than the timer has.
fn sooner(g: Gate, k: u32) -> u32
    ensures { result ≡ leap_sooner g k }
{
    if g.state == GateState::Prepare {
        return g.timer.saturating_sub(1).min(k);
    }
    k
}

// How many of k ticks the gates' timers allow.
pub fn horizon(gates: &[Gate; GATES], k: u32) -> u32
    ensures { result ≡ leap_horizon 12 gates.now k }
{
    gates.iter().fold(k, |most, g| sooner(*g, most))
}
