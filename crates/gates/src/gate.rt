// A gate: its logic's state and timer, its register bits, the pulses since the last tick, and what the last tick left.
ghost use Rattle.std.specs.Prelude.{◌≡◌, Bool, ◌-◌, ◌<◌};
ghost use Rattle.gates.specs.Gate.{state_number, from_idle, from_prepare, from_open, from_waiting, from_error, from_recover, from_direct, next_state, in_prepare, timer_of, output_of, gate_step, with_timeout, with_mode, with_prepare, with_recover, with_prepare_pulse, with_recover_pulse, each_gate, gate_bits, state_word, failed, prepare_signal, recover_signal};

use lines::GATES;

// The unit of a gate's timeout in ticks, 131,072 ns.
const TIMEOUT_UNIT: u32 = 16384;

// The states in the order of the Manual's IDs 0 to 6; Open is the Manual's GATE.
#[derive(Clone, Copy, PartialEq, Eq, Default)]
pub enum GateState {
    #[default]
    Idle,
    Prepare,
    Open,
    Waiting,
    Error,
    Recover,
    Direct,
}

#[derive(Clone, Copy, Default)]
pub struct Gate {
    pub state: GateState,
    pub timer: u32,
    // registers 0x0804 to 0x080F, and the gate's bits of 0x0802, 0x0A03 and 0x0A04
    pub timeout: u16,
    pub mode: bool,
    pub prepare: bool,
    pub recover: bool,
    // whether an event has pulsed the signal since the last tick
    pub preparepulse: bool,
    pub recoverpulse: bool,
    // the prepare signal and the output at the last tick
    pub lastprepare: bool,
    pub output: bool,
}

// The Manual's ID of a state.
impl From<GateState> for u16 {
    ghost from_gives = { λ state number. number ≡ state_number state };

    fn from(state: GateState) -> u16 {
        state as u16
    }
}

// IDLE: mode, then the input, then a rise of prepare.
fn from_idle(mode: bool, high: bool, rises: bool) -> GateState
    ensures { result ≡ from_idle mode high rises }
{
    if mode {
        return GateState::Direct;
    }
    if high {
        return GateState::Error;
    }
    if rises {
        return GateState::Prepare;
    }
    GateState::Idle
}

// PREPARE: the input, then the timer.
fn from_prepare(high: bool, spent: bool) -> GateState
    ensures { result ≡ from_prepare high spent }
{
    if high {
        return GateState::Open;
    }
    if spent {
        return GateState::Error;
    }
    GateState::Prepare
}

// GATE: until the input is low.
fn from_open(high: bool) -> GateState
    ensures { result ≡ from_open high }
{
    if high {
        return GateState::Open;
    }
    GateState::Waiting
}

// WAITING: the input, then prepare.
fn from_waiting(high: bool, prepare: bool) -> GateState
    ensures { result ≡ from_waiting high prepare }
{
    if high {
        return GateState::Error;
    }
    if prepare {
        return GateState::Waiting;
    }
    GateState::Idle
}

// ERROR: until recover is high.
fn from_error(recover: bool) -> GateState
    ensures { result ≡ from_error recover }
{
    if recover {
        return GateState::Recover;
    }
    GateState::Error
}

// RECOVER: until recover is low.
fn from_recover(recover: bool) -> GateState
    ensures { result ≡ from_recover recover }
{
    if recover {
        return GateState::Recover;
    }
    GateState::Idle
}

// DIRECT: until the mode bit is clear.
fn from_direct(mode: bool) -> GateState
    ensures { result ≡ from_direct mode }
{
    if mode {
        return GateState::Direct;
    }
    GateState::Idle
}

// The state after a tick.
fn next_state(g: Gate, high: bool) -> GateState
    ensures { result ≡ next_state g.state g high }
{
    let prepare = g.prepare_signal();
    let recover = g.recover_signal();
    let rises = prepare && !g.lastprepare;
    match g.state {
        GateState::Idle => from_idle(g.mode, high, rises),
        GateState::Prepare => from_prepare(high, g.timer <= 1),
        GateState::Open => from_open(high),
        GateState::Waiting => from_waiting(high, prepare),
        GateState::Error => from_error(recover),
        GateState::Recover => from_recover(recover),
        GateState::Direct => from_direct(g.mode),
    }
}

// The output in a state.
pub fn output_of(state: GateState, high: bool) -> bool
    ensures { result ≡ output_of state high }
{
    match state {
        GateState::Open => true,
        GateState::Direct => high,
        _ => false,
    }
}

impl Gate {
    // The prepare signal: its register bit, or an event's pulse.
    fn prepare_signal(self) -> bool
        ensures { result ≡ prepare_signal self }
    {
        self.prepare || self.preparepulse
    }

    // The recover signal.
    fn recover_signal(self) -> bool
        ensures { result ≡ recover_signal self }
    {
        self.recover || self.recoverpulse
    }

    // The timer after a tick that leads to a state: set on the way into PREPARE, one less while there.
    fn timer_in(self, state: GateState) -> u32
        ensures { result ≡ timer_of (in_prepare self.state) (in_prepare state) self.timer self.timeout }
    {
        match (self.state, state) {
            (GateState::Prepare, GateState::Prepare) => self.timer.saturating_sub(1),
            (_, GateState::Prepare) => TIMEOUT_UNIT * u32::from(self.timeout),
            _ => self.timer,
        }
    }

    // One tick at the level of the gate's input.
    #[tactic(auto, unfolding(crate::specs::Gate::gate_step))]
    pub fn step(self, high: bool) -> Gate
        ensures { result ≡ gate_step high self }
    {
        let state = next_state(self, high);
        Gate {
            state,
            timer: self.timer_in(state),
            preparepulse: false,
            recoverpulse: false,
            lastprepare: self.prepare_signal(),
            output: output_of(state, high),
            ..self
        }
    }

    // The gate with another timeout.
    pub fn with_timeout(mut self, timeout: u16) -> Gate
        ensures { result ≡ with_timeout timeout self }
    {
        self.timeout = timeout;
        self
    }

    pub fn with_mode(mut self, b: bool) -> Gate
        ensures { result ≡ with_mode b self }
    {
        self.mode = b;
        self
    }

    pub fn with_prepare(mut self, b: bool) -> Gate
        ensures { result ≡ with_prepare b self }
    {
        self.prepare = b;
        self
    }

    pub fn with_recover(mut self, b: bool) -> Gate
        ensures { result ≡ with_recover b self }
    {
        self.recover = b;
        self
    }

    pub fn pulse_prepare(mut self, b: bool) -> Gate
        ensures { result ≡ with_prepare_pulse b self }
    {
        self.preparepulse = self.preparepulse || b;
        self
    }

    pub fn pulse_recover(mut self, b: bool) -> Gate
        ensures { result ≡ with_recover_pulse b self }
    {
        self.recoverpulse = self.recoverpulse || b;
        self
    }

    // The gate error bit.
    pub fn failed(self) -> bool
        ensures { result ≡ failed self }
    {
        self.state == GateState::Error
    }
}

// All gates after a change: gate i by bit i of a word.
pub fn change_gates<F: Fn(Gate, bool) -> Gate>(gates: &mut [Gate; GATES], w: u16, change: F)
    requires { F.IsAlwaysCallable change }
    ensures { (f : Bool → Gate → Gate) → ((g : Gate) (b : Bool) (next : Gate) → F.post change g b next → next ≡ f b g) → gates.new ≡ each_gate f w gates.old }
{
    lists::step_each(gates, |i, g| change(g, words::bit(w, i)));
}

// A bit of each gate as a word, gate 0 lowest.
pub fn gate_bits<F: Fn(Gate) -> bool>(gates: &[Gate; GATES], bit: F) -> u16
    requires { F.IsAlwaysCallable bit }
    ensures { (f : Gate → Bool) → ((g : Gate) (b : Bool) → F.post bit g b → b ≡ f g) → result ≡ gate_bits f gates.now }
{
    words::from_bits(GATES, |i| bit(gates[i]))
}

// The states of gates 4 k to 4 k + 3, four bits each; past the last gate 0.
pub fn state_word(gates: &[Gate; GATES], k: u16) -> u16
    ensures { result ≡ state_word gates.now k }
{
    words::from_fields(4, 4, |i| {
        let g = 4 * usize::from(k) + i;
        if g < GATES {
            u16::from(gates[g].state)
        } else {
            0
        }
    })
}
