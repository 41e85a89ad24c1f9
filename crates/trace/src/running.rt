// The run of a trace: record by record, with a budget of ticks.
ghost use Rattle.std.specs.Prelude.{true, false, ◌≡◌, Some, Ok, ◌≤◌};
ghost use Rattle.records.specs.declared.Stop.TheVariants.{End};
ghost use Rattle.registers.specs.Calls.{from};
ghost use Rattle.registers.specs.Calls.{tick as call_tick};
ghost use Rattle.device.specs.State.{machine};
ghost use Rattle.lines.specs.Lines.{bad_levels};
ghost use Rattle.trace.specs.Leaping.{SameEnd};
ghost use Rattle.trace.specs.Run.{by_record, once_of, progress_of, repeated, report_of, run_of, ticks_in};
ghost use Rattle.trace.specs.Run.{run as run_run};
ghost use Rattle.trace.specs.Sound.{Sound};

use crate::Report;
use causes::Cause;
use device::Crate;
use lines::Levels;
use loader::MEMORY_WORDS;
use records::{Record, Stop};

// A leap costs about two ticks, so it is tried where at least twice that are left.
const WORTH: u64 = 4;

// What is left of so many ticks at the same levels, after a quiet stretch of them at once.
#[tactic(auto, using(crate::proofs::Leaping::leapt_end, crate::proofs::Leaping::same_end, leaps::proofs::Theorems::stretch_le))]
fn leap_on(state: &mut Crate, left: u64, levels: Levels) -> u64
    ensures { (result ≤ left) × SameEnd levels.inputs levels.gates state.old left state.new result }
{
    let Some(k) = leaps::stretch(state, left, levels) else {
        return left;
    };
    leaps::leap(state, k, levels.gates);
    left - u64::from(k)
}

// So many ticks at the same levels: a tick, and then the quiet ticks behind it at once. At the levels of the last tick the first may be quiet too.
fn tick_on(state: &mut Crate, mem: &[u16; MEMORY_WORDS], n: u64, levels: Levels)
    requires { bad_levels levels.inputs levels.gates ≡ false }
    ensures { machine state.new mem.now ≡ from (machine state.old mem.now) (repeated n (call_tick levels.inputs levels.gates)) }
{
    let mut left = n;
    if state.levels == levels.inputs && WORTH <= left {
        left = leap_on(state, left, levels);
    }
    // no turn is counted: what is left falls by a tick, and then by a stretch
    while 0 < left {
        // neither the memory nor the levels refuse it
        let _answer = registers::tick(state, mem, levels);
        left -= 1;
        if WORTH <= left && state.common.loader.is_none() {
            left = leap_on(state, left, levels);
        }
    }
}

// A run on its way: the trace, the budget of ticks, and the report so far, in which END stands until something else stops the run.
// Crate and memory stay beside it: they are the caller's and lent on to each call; held as `&mut` in here they would be lent again at every call,
// which is no plainer.
#[derive(Drop)]
struct Running<'a> {
    trace: &'a [u8],
    budget: u64,
    report: Report,
    ghost sound: { Sound trace.now budget report },
}

impl<'a> Running<'a> {
    ghost use Rattle.trace.specs.Turns.{SameTrace, made, turned};

    fn new(trace: &'a [u8], budget: u64) -> Running<'a>
        ensures { (result.report ≡ report_of End 0 0 0 0) × (result.trace.now ≡ trace.now) × (result.budget ≡ budget) }
    {
        Running {
            trace,
            budget,
            report: Report {
                stop: Stop::End,
                next: 0,
                ticks: 0,
                records: 0,
                refused: 0,
            },
        }
    }

    // A tick record: refused by its levels, or too long for the ticks left, or so many ticks. The answer is the ticks used, none of a refusal.
    #[tactic(auto, unfolding(crate::specs::Run::ticks_in, crate::specs::Run::passes, registers::specs::Calls::from), using(crate::proofs::Steps::tick_refused, bools::proofs::Tests::tests))]
    fn run_ticks(
        &self,
        state: &mut Crate,
        mem: &[u16; MEMORY_WORDS],
        repeat: u64,
        levels: Levels,
    ) -> Result<Option<u64>, Stop>
        ensures { run_run (made self.now.trace.now self.now.report result state.new) mem.now ≡ ticks_in self.now.trace.now self.now.budget (run_run (progress_of state.old self.now.report true) mem.now) repeat levels.inputs levels.gates }
    {
        // levels come before the budget: a record that they refuse is passed
        if levels.are_bad() {
            return Ok(None);
        }
        if self.budget - self.report.ticks < repeat {
            return Err(Stop::Spent);
        }
        tick_on(state, mem, repeat, levels);
        Ok(Some(repeat))
    }

    // What a record does, or why the run stops before it. The answer is the ticks used, none where the call was refused.
    #[tactic(auto, unfolding(crate::specs::Run::by_record), using(crate::proofs::Steps::call_made))]
    fn run_record(
        &self,
        state: &mut Crate,
        mem: &mut [u16; MEMORY_WORDS],
        record: Record,
    ) -> Result<Option<u64>, Stop>
        ensures { run_run (made self.now.trace.now self.now.report result state.new) mem.new ≡ by_record self.now.trace.now self.now.budget (Ok (Some «record»)) (run_run (progress_of state.old self.now.report true) mem.old) }
    {
        let answer = match record {
            Record::Ticks { repeat, levels } => return self.run_ticks(state, mem, repeat, levels),
            Record::Write { address, word } => registers::write(state, mem, address, word),
            Record::Tag { tag } => registers::tag(state, mem, tag),
        };
        // a refusal counts once, and the run goes on
        Ok(answer.is_ok().then_some(0))
    }

    // One record: it is passed, or the run stops before it, also at the end of the trace: as `Err`, so that `?` hands on every stop.
    #[tactic(auto, unfolding(crate::specs::Run::once_of, crate::specs::Run::by_record))]
    fn once(&mut self, state: &mut Crate, mem: &mut [u16; MEMORY_WORDS]) -> Result<(), Stop>
        ensures { (run_run (turned result state.new self.new.report) mem.new ≡ once_of self.old.trace.now self.old.budget (run_run (progress_of state.old self.old.report true) mem.old))
            × SameTrace self.old self.new }
    {
        let Some(record) = records::record_at(self.trace, self.report.next)? else {
            return Err(Stop::End);
        };
        let ticks = self.run_record(state, mem, record)?;
        self.report = Report {
            next: self.report.next + record.bytes(),
            ticks: self.report.ticks + ticks.unwrap_or(0),
            records: self.report.records + 1,
            refused: self.report.refused + usize::from(ticks.is_none()),
            ..self.report
        };
        Ok(())
    }
}

// The run of a trace on a crate and its memory, with a budget of ticks.
pub fn run(state: &mut Crate, mem: &mut [u16], trace: &[u8], budget: u64) -> Report
    ensures { run_run (progress_of state.new result false) mem.new ≡ run_of trace.now budget (machine state.old mem.old) }
{
    let mut running = Running::new(trace, budget);
    let Some(mem) = mem.as_mut_array() else {
        return Report {
            stop: Stop::Refused(Cause::Memory),
            ..running.report
        };
    };
    // each record moves the offset on, so a run stops at the end of the trace at the latest
    loop {
        if let Err(stop) = running.once(state, mem) {
            return Report {
                stop,
                ..running.report
            };
        }
    }
}
