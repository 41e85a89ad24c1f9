// A crate with its memory, as a program holds them.
#![tactic(auto)]

ghost use Rattle.std.specs.Prelude.{◌≡◌, false};
ghost use Rattle.std.specs.Result.{result_unwrap_or};
ghost use Rattle.machine.specs.Held.{held};
ghost use Rattle.reading.specs.Read.{read_of};
ghost use Rattle.registers.specs.Calls.{machine0};
ghost use Rattle.trace.specs.Run.{progress_of, run as run_run, run_of};

use device::Crate;
use loader::MEMORY_WORDS;
use trace::Report;

// The ticks that a program's run may take.
pub const PROGRAM_TICKS: u64 = 1_000_000;

#[derive(Drop)]
pub struct Machine {
    pub state: Crate,
    pub mem: [u16; MEMORY_WORDS],
}

impl Machine {
    // As power-up leaves it.
    pub fn new() -> Machine
        ensures { held result ≡ machine0 }
    {
        let mut mem = [0; MEMORY_WORDS];
        let (state, _answer) = registers::power_up(&mut mem);
        Machine { state, mem }
    }

    // Runs a trace with a budget of ticks.
    pub fn run(&mut self, trace: &[u8], budget: u64) -> Report
        ensures { run_run (progress_of self.new.state result false) self.new.mem ≡ run_of trace.now budget (held self.old) }
    {
        trace::run(&mut self.state, &mut self.mem, trace, budget)
    }

    // The word of a register, 0 where there is none.
    pub fn word(&self, address: u16) -> u16
        ensures { result ≡ result_unwrap_or (read_of (held self.now) address) 0 }
    {
        registers::read(&self.state, &self.mem, address).unwrap_or(0)
    }
}
