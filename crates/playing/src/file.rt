// Traces in files, played to a crate.
ghost use Rattle.std.specs.Prelude.{◌≡◌, ◌≤◌, IfSome, length};
ghost use Rattle.device.specs.State.{machine};
ghost use Rattle.playing.specs.Often.{ran_often};

use device::Crate;
use machine::{Machine, PROGRAM_TICKS};
use std::rt::Files;
use std::{fs, str};

// A file, opened to be read; where it cannot be opened, and a name that is not text names none, this is told on standard error. Names are bytes,
// since a `&str` would ask more of callers.
pub fn open_file<R: Files + Eprint>(rt: &R, file: &[u8]) -> Option<R::File> {
    let Ok(name) = str::from_utf8(file) else {
        let _ = eprintln!(rt; "{file:?}: no name of a file");
        return None;
    };
    match fs::open(rt, name) {
        Ok(opened) => Some(opened),
        Err(e) => {
            let _ = eprintln!(rt; "{name}: {e}");
            None
        }
    }
}

// The bytes of a file, as many as the buffer holds, if it can be opened. Of what they are no contract can speak.
pub fn load<'a, R: Files + Eprint>(rt: &R, file: &[u8], buf: &'a mut [u8]) -> Option<&'a [u8]>
    ensures { IfSome result (λ trace. length trace.now ≤ length buf.old) }
{
    let mut opened = open_file(rt, file)?;
    Some(standard_input::read_input(&mut opened, buf).unwrap_or_else(|e| e.read))
}

// A trace, so many times, with a program's ticks each time. Crate and memory apart, as `trace::run` takes them: a `Machine` would ask for a memory of the right length.
#[tactic(auto, using(crate::proofs::Runs::often_less, crate::proofs::Runs::often_done))]
pub fn run_often(state: &mut Crate, mem: &mut [u16], trace: &[u8], times: u32)
    ensures { machine state.new mem.new ≡ ran_often times trace.now (machine state.old mem.old) }
{
    for _ in 0..times {
        let _report = trace::run(state, mem, trace, PROGRAM_TICKS);
    }
}

// The trace of a file, so many times: of what is read no contract can speak.
pub fn play_often<R: Files + Eprint>(
    rt: &R,
    state: &mut Crate,
    mem: &mut [u16],
    file: &[u8],
    times: u32,
) {
    let mut buf = io::large_buffer();
    if let Some(trace) = load(rt, file, &mut buf) {
        run_often(state, mem, trace, times);
    }
}

// The trace of a file from power-up.
pub fn begin<R: Files + Eprint>(rt: &R, file: &[u8]) -> Machine {
    let mut machine = Machine::new();
    play_often(rt, &mut machine.state, &mut machine.mem, file, 1);
    machine
}
