// The word that a read of each register gives.
ghost use Rattle.std.specs.Prelude.{◌≡◌, true, false, get_or};
ghost use Rattle.bools.specs.Pick.{pick};
ghost use Rattle.loader.specs.Loader.{busy};
ghost use Rattle.reading.specs.Read.{module_id, module_word, low_first, half_of, threshold_of, readout_word, setting_word, shared_word, gate_word, word_in};
ghost use Rattle.device.specs.State.{machine};

use counters::Counter;
use device::{Common, Crate, GateWord, ReadoutWord, Register, SettingWord, Settings, SharedWord};
use gates::Gate;
use lines::GATES;
use loader::Reload;

// Element i; past the end one as at power-up, the one default of its type.
fn at<T: Copy + Default>(xs: &[T], i: u16) -> T
    ensures { (d : T) → ((e : T) → T.is_default e → e ≡ d) → result ≡ get_or xs.now i d }
{
    xs.get(usize::from(i)).copied().unwrap_or_default()
}

// The module in a slot.
fn module_id(slot: usize) -> u16
    ensures { result ≡ module_id slot }
{
    match slot {
        0..=8 => 0x07,
        9..=10 => 0x03,
        _ => 0x06,
    }
}

// Two slots' modules, the first in the low byte.
#[tactic(auto, unfolding(crate::specs::Read::module_word))]
fn module_word(k: u16) -> u16
    ensures { result ≡ module_word k }
{
    words::from_fields(2, 8, |j| module_id(2 * usize::from(k) + j))
}

// Word j of a 32-bit number, low word first.
fn low_first(j: u16, n: u32) -> u16
    ensures { result ≡ low_first j n }
{
    words::halves(n)[usize::from(j % 2)]
}

// The low or the high word of a number.
fn half(j: u16, z: i32) -> u16
    ensures { result ≡ half_of j z }
{
    low_first(j, z.cast_unsigned())
}

// The positive threshold, then the negative one.
fn threshold(j: u16, c: Counter) -> i32
    ensures { result ≡ threshold_of j c }
{
    if j < 2 { c.positive } else { c.negative }
}

// 3 while the loader is busy.
fn loader_state(loader: Option<Reload>) -> u16
    ensures { result ≡ pick (busy loader) 3 0 }
{
    if loader.is_some() { 3 } else { 0 }
}

// The word of a read-only register; past the inputs a raw count is 0.
#[tactic(auto, unfolding(crate::specs::Read::readout_word, counters::specs::Counter::counter_at, gates::specs::Gate::outputs_of))]
fn readout_word(s: &Crate, q: ReadoutWord) -> u16
    ensures { result ≡ readout_word s.now q }
{
    let events = s.status.events;
    match q {
        ReadoutWord::Module(k) => module_word(k),
        ReadoutWord::Negative(k) => counters::overflow_word(&s.counters, k, Counter::is_under),
        ReadoutWord::Positive(k) => counters::overflow_word(&s.counters, k, Counter::is_over),
        ReadoutWord::GateErrors => gates::gate_bits(&s.gates, Gate::failed),
        ReadoutWord::WatchdogErrors(k) => watchdogs::error_word(&s.watchdogs, k),
        ReadoutWord::GateInputs => s.status.gatelevels,
        ReadoutWord::GateOutputs => gates::gate_bits(&s.gates, |g| g.output),
        ReadoutWord::Outputs => interlocks::outputs(s),
        ReadoutWord::GateStates(k) => gates::state_word(&s.gates, k),
        ReadoutWord::TagLow => events.low,
        ReadoutWord::TagHigh => events.high,
        ReadoutWord::Code => events.code,
        ReadoutWord::LoaderState => loader_state(s.common.loader),
        ReadoutWord::LoaderCounter => events.handled,
        ReadoutWord::QueueLength => s.common.queue.waiting(),
        ReadoutWord::Count(k) => half(k, at(&s.counters, k / 2).count),
        ReadoutWord::Raw(k) => low_first(k, at(&s.status.rawcounts, k / 2)),
        ReadoutWord::Threshold(k) => half(k, threshold(k % 4, at(&s.counters, k / 4))),
    }
}

// The word of a setting.
#[tactic(auto, unfolding(crate::specs::Read::setting_word))]
fn setting_word(s: &Settings, q: SettingWord) -> u16
    ensures { result ≡ setting_word s.now q }
{
    match q {
        SettingWord::Mask(k) => at(&s.masks, k),
        SettingWord::WatchdogTimeout => s.timeout,
        SettingWord::Selection { output, place } => {
            let block = s.selections.get(usize::from(output));
            block.map_or(0, |words| at(words, place))
        }
    }
}

// The word of a register that all counters share.
#[tactic(auto, unfolding(crate::specs::Read::shared_word))]
fn shared_word(cm: &Common, q: SharedWord) -> u16
    ensures { result ≡ shared_word cm.now q }
{
    match q {
        SharedWord::Control => cm.control,
        SharedWord::Key => cm.key,
        SharedWord::Enable => cm.enable,
        SharedWord::Reload => cm.reload,
    }
}

// The word of a register of the gates.
#[tactic(auto, unfolding(crate::specs::Read::gate_word, gates::specs::Gate::gate_at))]
fn gate_word(gates: &[Gate; GATES], q: GateWord) -> u16
    ensures { result ≡ gate_word gates.now q }
{
    match q {
        GateWord::Mode => gates::gate_bits(gates, |g| g.mode),
        GateWord::Timeout(g) => at(gates, g).timeout,
        GateWord::Prepare => gates::gate_bits(gates, |g| g.prepare),
        GateWord::Recover => gates::gate_bits(gates, |g| g.recover),
    }
}

// The word of a register.
#[tactic(auto, unfolding(crate::specs::Read::word_in, counters::specs::Counter::counter_at, loader::specs::Memory::word_at))]
pub fn word_in(s: &Crate, mem: &[u16], r: Register) -> u16
    ensures { result ≡ word_in (machine s.now mem.now) r }
{
    match r {
        Register::Readout(q) => readout_word(s, q),
        Register::Setting(q) => setting_word(&s.settings, q),
        Register::Shared(q) => shared_word(&s.common, q),
        Register::Gates(q) => gate_word(&s.gates, q),
        Register::Watchdogs(k) => watchdogs::reset_word(&s.watchdogs, k),
        Register::Input(n) => at(&s.counters, n).input,
        Register::Group(k) => at(&s.groups, k),
        Register::Word(i) => at(mem, i),
    }
}
