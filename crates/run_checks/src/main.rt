// Runs the checks that document 01 wants run, each from power-up, and prints the register that shows the result.
#![tactic(auto)]

use lines::Levels;
use machine::Machine;
use pages::Page;
use playing::write;
use std::rt::Files;

// A register after the trace of a file: its word is printed in a line behind what it shows.
struct Check {
    shows: &'static [u8],
    file: &'static [u8],
    address: u16,
}

impl Check {
    fn run(&self, rt: &(impl Files + Print + Eprint)) {
        let word = playing::begin(rt, self.file).word(self.address);
        let line = Page::new().put_text(self.shows);
        write(rt, line.put_hexadecimal(4, word.into()).put(b'\n'));
    }
}

// Watchdog errors of inputs 0 to 15, and states of gates 0 to 3.
const TIMEOUTS: [Check; 4] = [
    Check {
        shows: b"watchdogs, rises 128 apart: ",
        file: b"rises_128_apart",
        address: 0x0711,
    },
    Check {
        shows: b"watchdogs, rises 129 apart: ",
        file: b"rises_129_apart",
        address: 0x0711,
    },
    Check {
        shows: b"gates, 16383 low ticks: ",
        file: b"low_16383",
        address: 0x071A,
    },
    Check {
        shows: b"gates, 16384 low ticks: ",
        file: b"low_16384",
        address: 0x071A,
    },
];

// The low words of the positive thresholds of counters 0 and 127.
const RELOAD: [Check; 2] = [
    Check {
        shows: b"written during a reload, counter 0: ",
        file: b"written_during_reload",
        address: 0x1800,
    },
    Check {
        shows: b"written during a reload, counter 127: ",
        file: b"written_during_reload",
        address: 0x19FC,
    },
];

// The count of counter 0, and the state of its gate.
const AUTORESET: [Check; 3] = [
    Check {
        shows: b"AUTORESET, gate opened twice, count: ",
        file: b"gate_reopened",
        address: 0x1200,
    },
    Check {
        shows: b"AUTORESET, gate in ERROR, count: ",
        file: b"gate_in_error",
        address: 0x1200,
    },
    Check {
        shows: b"AUTORESET, gate in ERROR, gates: ",
        file: b"gate_in_error",
        address: 0x071A,
    },
];

// 01's example, as the program prints it.
fn example(rt: &(impl Files + Print + Eprint)) {
    let mut buf = io::large_buffer();
    let trace = playing::load(rt, b"example", &mut buf).unwrap_or(&[]);
    write(rt, printing::rehearse(trace));
}

// The tick of the first rise of a test signal, counted by counter 0 on a direct gate, if there is one in 20,000.
fn first_rise(signal: u16) -> Option<u64> {
    let Machine { mut state, mut mem } = Machine::new();
    let selected = patching::input_word(signal, 54, 0)?;
    registers::write(&mut state, &mut mem, 0x1000, selected).ok()?;
    registers::write(&mut state, &mut mem, 0x0802, 1).ok()?;
    let levels = Levels {
        inputs: 0,
        gates: 1,
    };
    for tick in 1..=20_000 {
        registers::tick(&mut state, &mem, levels).ok()?;
        if registers::read(&state, &mem, 0x1200) == Ok(1) {
            return Some(tick);
        }
    }
    None
}

// The first rises of the nine test signals, 0 where there is none.
fn first_rises(rt: &impl Print) {
    let mut line = Page::new().put_text(b"first rises of test signals 55 to 63:");
    for signal in 55..64 {
        line = line.put(b' ').put_decimal(first_rise(signal).unwrap_or(0));
    }
    write(rt, line.put(b'\n'));
}

fn main(rt: HostRuntime) {
    example(&rt);
    for check in &TIMEOUTS {
        check.run(&rt);
    }
    first_rises(&rt);
    for check in RELOAD.iter().chain(&AUTORESET) {
        check.run(&rt);
    }
}
