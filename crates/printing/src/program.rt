// What the program prints: the four lines, and the run that they tell of.
ghost use Rattle.std.specs.Prelude.{◌≡◌, ◌++◌, ◌+◌, ◌<◌, ◌≤◌, length, codes};
ghost use Rattle.device.specs.State.{machine};
ghost use Rattle.pages.specs.Page.{written, cut};
ghost use Rattle.printing.specs.Printed.{words_from, program_prints};
ghost use Rattle.printing.specs.Printed.{printed as printed_printed};

use crate::report::put_report;
use device::Crate;
use machine::{Machine, PROGRAM_TICKS};
use pages::Page;
use trace::Report;

// A line of the eight words from an address on, behind its name.
#[tactic(auto, using(crate::proofs::Places::words_more, crate::proofs::Places::no_words, pages::proofs::Pages::cut_two))]
fn put_block(page: Page, name: &[u8], state: &Crate, mem: &[u16], address: u16) -> Page
    requires { address + 8 < 65536 }
    ensures { written result ≡ cut (written page ++ (name.now ++ (words_from (machine state.now mem.now) 8 address ++ codes "\n"))) }
{
    let mut line = page.put_text(name);
    for a in address..address + 8 {
        let word = registers::read(state, mem, a).unwrap_or(0);
        line = line.put(b' ').put_hexadecimal(4, word.into());
    }
    line.put(b'\n')
}

// The report, both overflow blocks and the outputs. Crate and memory apart, as the calls take them: a `Machine` would ask for a memory of the right length.
pub fn printed(report: Report, state: &Crate, mem: &[u16]) -> Page
    ensures text { written result ≡ printed_printed report (machine state.now mem.now) }
    ensures fits { result.length ≤ length result.bytes }
{
    let mut page = put_report(Page::new(), report);
    page = put_block(page, b"NEG", state, mem, 0x0700);
    page = put_block(page, b"POS", state, mem, 0x0708);
    let outputs = registers::read(state, mem, 0x0719).unwrap_or(0);
    page.put_text(b"OUT ")
        .put_hexadecimal(2, outputs.into())
        .put(b'\n')
}

// The bytes of its input that the program takes.
const PROGRAM_BYTES: usize = 65_536;

// What the program prints for its input: these bytes, run from power-up with a program's ticks.
pub fn rehearse(input: &[u8]) -> Page
    ensures text { written result ≡ program_prints input.now }
    ensures fits { result.length ≤ length result.bytes }
{
    let trace = &input[..input.len().min(PROGRAM_BYTES)];
    let mut machine = Machine::new();
    let report = machine.run(trace, PROGRAM_TICKS);
    printed(report, &machine.state, &machine.mem)
}
