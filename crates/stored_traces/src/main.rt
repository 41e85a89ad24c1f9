// The stored traces of the file `traces`: each is run from power-up, and its report is printed with a digest of the registers and the
// memory that it leaves. What is expected is what the reference model prints. In the file a trace stands behind its length in four
// bytes and its budget of ticks in eight, high byte first, of which the highest bit is not looked at.
#![tactic(auto)]

use machine::Machine;
use pages::Page;
use playing::write;
use std::io::Read;

#[derive(Clone, Copy)]
struct Stored<'a> {
    trace: &'a [u8],
    budget: u64,
}

// One word more in a digest.
fn fold(d: u32, word: u16) -> u32 {
    ((u64::from(d) * 65599 + u64::from(word) + 1) % 4294967291) as u32
}

// Of the words of the registers from 0x0600 to 0x19FF, and of the memory.
fn digest(machine: &Machine) -> u32 {
    (0x0600..0x1A00)
        .map(|address| machine.word(address))
        .chain(machine.mem.iter().copied())
        .fold(0, fold)
}

fn run(rt: &impl Print, stored: Stored<'_>) {
    let mut machine = Machine::new();
    let report = machine.run(stored.trace, stored.budget);
    let told = printing::put_report(Page::new(), report).put_text(b"DIGEST ");
    let d = digest(&machine);
    write(rt, told.put_hexadecimal(8, d.into()).put(b'\n'));
}

// As many bytes of the file as the buffer has, if it has them; where a read fails, it has no more.
fn read_whole<'a, F: Read>(file: &mut F, buf: &'a mut [u8]) -> Option<&'a [u8]> {
    let wanted = buf.len();
    let read = standard_input::read_input(file, buf).unwrap_or_else(|e| e.read);
    (read.len() == wanted).then_some(read)
}

// The next trace of the file, if it has one whole that the buffer holds.
fn next_trace<'a, F: Read>(file: &mut F, buf: &'a mut [u8; 65536]) -> Option<Stored<'a>> {
    let mut length = [0; 4];
    let mut budget = [0; 8];
    read_whole(file, &mut length)?;
    read_whole(file, &mut budget)?;
    let trace = read_whole(file, buf.get_mut(..u32::from_be_bytes(length) as usize)?)?;
    Some(Stored {
        trace,
        budget: u64::from_be_bytes(budget) % (1 << 63),
    })
}

// All traces of the file.
fn main(rt: HostRuntime) {
    let Some(mut file) = playing::open_file(&rt, b"traces") else {
        return;
    };
    let mut buf = io::large_buffer();
    // a bound, as nothing says that a file ends
    for _ in 0..10_000 {
        let Some(stored) = next_trace(&mut file, &mut buf) else {
            return;
        };
        run(&rt, stored);
    }
}
