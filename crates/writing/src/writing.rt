// What a write to each register answers and does.
ghost use Rattle.std.specs.Prelude.{◌≡◌};
ghost use Rattle.bools.specs.Pick.{pick};
ghost use Rattle.words.specs.Word.{lowest};
ghost use Rattle.loader.specs.Loader.{pushed};
ghost use Rattle.causes.specs.Causes.{is_done};
ghost use Rattle.device.specs.Map.{selection_bits};
ghost use Rattle.device.specs.State.{machine, with_common, with_counters, with_queue};
ghost use Rattle.writing.specs.Write.{request_answer, triggers, reload_answer, reload_write, control_write, with_selected, settings_write, shared_answer, shared_clears, shared_write, gates_write, write_answer, reset_by, write_at};

use causes::Cause;
use device::{
    Common, Crate, GateWord, OUTPUT_WORDS, OUTPUTS, Register, SettingWord, Settings, SharedWord,
};
use gates::Gate;
use lines::GATES;
use loader::{Dataset, Request};

// A request enters the queue, or is refused: dataset above 31, then 16 waiting.
#[tactic(auto, using(bools::proofs::Tests::tests), unfolding(crate::specs::Write::request_answer))]
pub fn request(cm: &mut Common, request: Request) -> Result<(), Cause>
    ensures { (result ≡ request_answer cm.old.queue request.dataset) × (cm.new ≡ pick (is_done (request_answer cm.old.queue request.dataset)) (with_queue cm.old (pushed cm.old.queue request)) cm.old) }
{
    Dataset::new(request.dataset.into()).ok_or(Cause::Dataset)?;
    if cm.queue.is_full() {
        return Err(Cause::Full);
    }
    cm.queue.push(request);
    Ok(())
}

// Whether a word sets TRIGGER where it was clear.
fn triggers(word: u16, cm: &Common) -> bool
    ensures { result ≡ triggers word cm.now }
{
    words::bit(word, 12) && !words::bit(cm.reload, 12)
}

// A write to 0x0A02: a refused request stores nothing.
#[tactic(auto, unfolding(crate::specs::Write::reload_write, crate::specs::Write::reload_answer, crate::specs::Write::requested, device::specs::Map::kept))]
fn write_reload(cm: &mut Common, word: u16) -> Result<(), Cause>
    ensures { (result ≡ reload_answer word cm.old) × (cm.new ≡ reload_write word cm.old) }
{
    if triggers(word, cm) {
        request(cm, Request::from(word))?;
    }
    cm.reload = word % 8192;
    Ok(())
}

// The used bits of an output's selection word.
#[tactic(auto, using(bools::proofs::Tests::tests))]
fn keep_selection(place: u16, word: u16) -> u16
    ensures { result ≡ lowest (selection_bits place) word }
{
    match place {
        0x10 | 0x15 => word % 4096,
        0x14 => word % 64,
        _ => word,
    }
}

// A word of an output's block set, and nothing past the end.
fn write_selection(
    selections: &mut [[u16; OUTPUT_WORDS]; OUTPUTS],
    output: usize,
    place: usize,
    word: u16,
)
    ensures { selections.new ≡ with_selected selections.old output place word }
{
    if output < OUTPUTS {
        lists::change(&mut selections[output], place, |_| word);
    }
}

// A write to a setting.
#[tactic(auto, unfolding(crate::specs::Write::settings_write, device::specs::Map::kept))]
fn write_setting(s: &mut Settings, q: SettingWord, word: u16)
    ensures { s.new ≡ settings_write q word s.old }
{
    match q {
        SettingWord::Mask(k) => lists::change(&mut s.masks, k.into(), |_| word % 4096),
        SettingWord::WatchdogTimeout => s.timeout = word,
        SettingWord::Selection { output, place } => {
            let kept = keep_selection(place, word);
            write_selection(&mut s.selections, output.into(), place.into(), kept);
        }
    }
}

// A write to 0x0801: RESET clears all counts.
#[tactic(auto, unfolding(crate::specs::Write::reset_by, crate::specs::Write::control_write, device::specs::Map::kept))]
fn write_control(s: &mut Crate, word: u16)
    ensures { s.new ≡ with_common (with_counters s.old (reset_by word s.old.counters)) (control_write word s.old.common) }
{
    s.common.control = word % 4;
    if words::bit(word, 0) {
        counters::clear_counters(&mut s.counters);
    }
}

// A write to a register that all counters share.
#[tactic(auto, unfolding(crate::specs::Write::shared_write, crate::specs::Write::key_write, crate::specs::Write::enable_write, device::specs::Map::kept))]
fn write_shared(s: &mut Crate, q: SharedWord, word: u16) -> Result<(), Cause>
    ensures { (result ≡ shared_answer q word s.old.common) × (s.new ≡ with_common (with_counters s.old (shared_clears q word s.old.counters)) (shared_write q word s.old.common)) }
{
    match q {
        SharedWord::Control => write_control(s, word),
        SharedWord::Key => s.common.key = word,
        SharedWord::Enable => s.common.enable = word % 2,
        SharedWord::Reload => return write_reload(&mut s.common, word),
    }
    Ok(())
}

// A write to a register of the gates.
#[tactic(auto, using(lists::proofs::Sweep::get_d_any), unfolding(crate::specs::Write::gates_write, device::specs::Map::kept, gates::specs::Gate::gate_at))]
fn write_gates(gates: &mut [Gate; GATES], q: GateWord, word: u16)
    ensures { gates.new ≡ gates_write q word gates.old }
{
    match q {
        GateWord::Mode => gates::change_gates(gates, word, Gate::with_mode),
        GateWord::Timeout(g) => lists::change(gates, g.into(), |gate| gate.with_timeout(word)),
        GateWord::Prepare => gates::change_gates(gates, word, Gate::with_prepare),
        GateWord::Recover => gates::change_gates(gates, word, Gate::with_recover),
    }
}

// What a write answers, and does to the crate and the memory; a refused one leaves both.
#[tactic(auto, using(lists::proofs::Sweep::get_d_any), unfolding(crate::specs::Write::write_at, crate::specs::Write::write_answer, device::specs::Map::kept, counters::specs::Counter::counter_at))]
pub fn write_at(s: &mut Crate, mem: &mut [u16], r: Register, word: u16) -> Result<(), Cause>
    ensures { (result ≡ write_answer s.old.common r word) × (machine s.new mem.new ≡ write_at (machine s.old mem.old) r word) }
{
    match r {
        Register::Readout(_) => return Err(Cause::ReadOnly),
        Register::Setting(q) => write_setting(&mut s.settings, q, word),
        Register::Shared(q) => return write_shared(s, q, word),
        Register::Gates(q) => write_gates(&mut s.gates, q, word),
        Register::Watchdogs(k) => {
            watchdogs::reset_watchdogs(&mut s.watchdogs, k.into(), word);
        }
        Register::Input(n) => {
            lists::change(&mut s.counters, n.into(), |c| c.with_input(word));
        }
        Register::Group(k) => lists::change(&mut s.groups, k.into(), |_| word),
        Register::Word(i) => lists::change(mem, i.into(), |_| word),
    }
    Ok(())
}
