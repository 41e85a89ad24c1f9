// A tick of the crate, in document 01's order where one part looks at what another has done: rises, gates, counters, the loader's counter.
// Watchdogs and raw counts look at the rises alone.
ghost use Rattle.std.specs.Prelude.{◌≡◌};
ghost use Rattle.ticking.specs.Tick.{common_tick, handled_by, status_tick, tick_of};

use counters::Drive;
use device::{Common, Crate, Events, Status};
use gates::Gate;
use lines::Levels;
use loader::{MEMORY_WORDS, Reload};

// Phases, queue and loader.
#[tactic(auto, unfolding(crate::specs::Tick::common_tick))]
fn tick_common(cm: &mut Common)
    ensures { cm.new ≡ common_tick cm.old }
{
    loader::step_loader(&mut cm.loader, &mut cm.queue);
    lines::step_phases(&mut cm.phases);
}

// The last counter handled.
fn note_handled(e: &mut Events, loader: Option<Reload>)
    ensures { e.new ≡ handled_by loader e.old }
{
    if let Some(reload) = loader {
        e.handled = reload.next;
    }
}

// The raw counts, the gate levels, the last counter handled.
#[tactic(auto, unfolding(crate::specs::Tick::status_tick))]
fn tick_status(status: &mut Status, rises: u64, gatelevels: u16, loader: Option<Reload>)
    ensures { status.new ≡ status_tick rises gatelevels loader status.old }
{
    lines::count_rises(&mut status.rawcounts, rises);
    status.gatelevels = gatelevels;
    note_handled(&mut status.events, loader);
}

// One tick at levels of lines that exist.
#[tactic(auto, unfolding(crate::specs::Tick::tick_of, gates::specs::Gate::outputs_of))]
pub fn tick_crate(s: &mut Crate, mem: &[u16; MEMORY_WORDS], levels: Levels)
    ensures { s.new ≡ tick_of s.old mem.now levels.inputs levels.gates }
{
    let loader = s.common.loader;
    let rises = lines::rises(s.levels, levels.inputs, &s.common.phases);
    let was = gates::gate_bits(&s.gates, |g| g.output);
    gates::change_gates(&mut s.gates, levels.gates, Gate::step);
    let is = gates::gate_bits(&s.gates, |g| g.output);
    let drive = Drive {
        control: s.common.control,
        rises,
        was,
        is,
    };
    counters::tick_counters(&mut s.counters, drive);
    loader::load_into(loader, &s.groups, mem, &mut s.counters);
    tick_common(&mut s.common);
    watchdogs::step_watchdogs(&mut s.watchdogs, s.settings.timeout, rises);
    tick_status(&mut s.status, rises, levels.gates, loader);
    s.levels = levels.inputs;
}
