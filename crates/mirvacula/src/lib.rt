// The library for programs in C and Rust: a trace run from power-up, its report and its register image or the scan of its outputs as
// numbers; a capture as a trace; the words that patch a counter; sliding sums.
#![tactic(auto)]

ghost use Rattle.std.specs.Prelude.{false, ◌≡◌, eqb};
ghost use Rattle.bools.specs.Pick.{pick};
ghost use Rattle.captures.specs.Captures.{frame_in};
ghost use Rattle.device.specs.State.{machine};
ghost use Rattle.loader.specs.Memory.{memory_words};
ghost use Rattle.mirvacula.specs.Converting.{answered, convert_of, unanswered};
ghost use Rattle.lent.specs.Lent.{bad_buffer};
ghost use Rattle.lent.specs.Sums.{lent_sample, lent_start, sum_sample_of, sum_start_of};
ghost use Rattle.patching.specs.Patching.{group_word_of, input_word_of};
ghost use Rattle.mirvacula.specs.Exported.{exported, export_of, image_of, output_numbers, report_of, run_on, scan_export_of};
ghost use Rattle.causes.specs.declared.Cause.TheVariants.{Memory};
ghost use Rattle.causes.specs.Causes.{cause_number};
ghost use Rattle.trace.specs.Run.{progress_of, run as run_run};

use captures::{FRAME_BYTES, Refusal};
use causes::Cause;
use device::{Crate, OUTPUTS};
use interlocks::OutputScan;
use lent::BAD_BUFFER;
use loader::MEMORY_WORDS;
use trace::Report;

// The numbers of a report.
const REPORT_WORDS: usize = 5;

// The report as numbers, as the C interface needs them.
fn put_report(out: &mut [u64; REPORT_WORDS], report: Report)
    ensures { out.new ≡ report_of report }
{
    *out = [
        u16::from(report.stop).into(),
        report.next as u64,
        report.ticks,
        report.records as u64,
        report.refused as u64,
    ];
}

// The register image: its first address, and its words.
const IMAGE_START: u16 = 0x0600;

const IMAGE_WORDS: usize = 0x1400;

// The words of the image: 0 where a read is refused.
#[tactic(auto, unfolding(crate::specs::Exported::image_of, lists::specs::Table::each))]
fn put_image(out: &mut [u16; IMAGE_WORDS], state: &Crate, mem: &[u16])
    ensures { out.new ≡ image_of (machine state.now mem.now) }
{
    lists::step_each(out, |k, _| {
        registers::read(state, mem, IMAGE_START + k as u16).unwrap_or(0)
    });
}

// The numbers of a scan: the levels, then the numbers of words read.
const SCAN_WORDS: usize = 2 * OUTPUTS;

// The scan as numbers.
fn put_scan(out: &mut [u16; SCAN_WORDS], outputs: &[OutputScan; OUTPUTS])
    ensures { out.new ≡ output_numbers outputs.now }
{
    let (levels, words) = out.split_at_mut(OUTPUTS);
    levels.copy_from_slice(&outputs.map(|x| u16::from(x.level)));
    words.copy_from_slice(&outputs.map(|x| x.words));
}

// A report, an image or a scan of the wrong length; a memory of the wrong length comes first. Numbers, as the C interface needs them.
#[tactic(auto, using(bools::proofs::Tests::tests))]
fn misfit_code(words: usize) -> u16
    ensures { result ≡ pick (eqb words memory_words) bad_buffer (cause_number Memory) }
{
    if words == MEMORY_WORDS {
        BAD_BUFFER
    } else {
        u16::from(Cause::Memory)
    }
}

// The outputs of a scan that is refused: the C interface has numbers alone, and these are zeros.
const REFUSED: [OutputScan; OUTPUTS] = [OutputScan {
    level: false,
    words: 0,
}; OUTPUTS];

// Runs a trace from power-up and fills in its report: the crate that it leaves, and the report.
#[tactic(auto, unfolding(crate::specs::Exported::run_on))]
fn run_and_report(
    mem: &mut [u16],
    bytes: &[u8],
    budget: u64,
    report: &mut [u64; REPORT_WORDS],
) -> (Crate, Report)
    ensures { (run_run (progress_of result.0 result.1 false) mem.new ≡ run_on mem.old bytes.now budget) × (report.new ≡ report_of result.1) }
{
    // a memory that power-up refuses stops the run too
    let (mut state, _answer) = registers::power_up(mem);
    let told = trace::run(&mut state, mem, bytes, budget);
    put_report(report, told);
    (state, told)
}

// Runs a trace from power-up on a lent memory with a budget of ticks. Nothing is done where the report is not of
// 5 numbers or the image not of 5,120 words.
#[unsafe(no_mangle)]
#[tactic(auto, unfolding(crate::specs::Exported::export_of))]
pub extern "C" fn mirvacula_run(
    mem: &mut [u16],
    bytes: &[u8],
    budget: u64,
    report: &mut [u64],
    image: &mut [u16],
) -> u16
    ensures { exported result mem.new report.new image.new ≡ export_of mem.old bytes.now budget report.old image.old }
{
    let Some(report) = report.as_mut_array() else {
        return misfit_code(mem.len());
    };
    let Some(image) = image.as_mut_array() else {
        return misfit_code(mem.len());
    };
    let (state, told) = run_and_report(mem, bytes, budget, report);
    put_image(image, &state, mem);
    told.stop.into()
}

// Runs a trace as `mirvacula_run` does and scans the outputs of the crate that it leaves. Nothing is done where the report
// is not of 5 numbers or the scan not of 12.
#[unsafe(no_mangle)]
#[tactic(auto, using(crate::proofs::Refused::scan_told), unfolding(crate::specs::Exported::scan_export_of))]
pub extern "C" fn mirvacula_scan(
    mem: &mut [u16],
    bytes: &[u8],
    budget: u64,
    report: &mut [u64],
    outputs: &mut [u16],
) -> u16
    ensures { exported result mem.new report.new outputs.new ≡ scan_export_of mem.old bytes.now budget report.old outputs.old }
{
    let Some(report) = report.as_mut_array() else {
        return misfit_code(mem.len());
    };
    let Some(outputs) = outputs.as_mut_array() else {
        return misfit_code(mem.len());
    };
    let (state, told) = run_and_report(mem, bytes, budget, report);
    let scan = registers::scan(&state, mem).unwrap_or(REFUSED);
    put_scan(outputs, &scan);
    told.stop.into()
}

// An answer of the wrong length; a capture that is not of whole frames comes first. Numbers, as the C interface needs them.
#[tactic(auto, using(bools::proofs::Tests::tests))]
fn unanswered_code(bytes: usize) -> u16
    ensures { result ≡ unanswered bytes }
{
    if bytes % FRAME_BYTES == 0 {
        BAD_BUFFER
    } else {
        Cause::NotFrames.into()
    }
}

// The frame that the answer has: that of refusal 6, else 0.
fn frame_in(why: Refusal) -> u64
    ensures { result ≡ frame_in why }
{
    match why {
        Refusal::BadLevel { frame } => frame as u64,
        Refusal::NotFrames | Refusal::NoRoom => 0,
    }
}

// A capture becomes a trace. The answer is the length of the trace in bytes and, of a refusal by 6, the frame: numbers, as the C interface has no
// enums with fields. Nothing is done where the answer is not of 2 numbers.
#[unsafe(no_mangle)]
#[tactic(auto, unfolding(crate::specs::Converting::convert_of))]
pub extern "C" fn mirvacula_convert(capture: &[u8], out: &mut [u8], answer: &mut [u64]) -> u16
    ensures { answered result out.new answer.new ≡ convert_of capture.now out.old answer.old }
{
    let Some(answer) = answer.as_mut_array() else {
        return unanswered_code(capture.len());
    };
    let (number, length, frame) = match captures::convert(capture, out) {
        Ok(bytes) => (0, bytes as u64, 0),
        Err(why) => (Cause::from(why).into(), 0, frame_in(why)),
    };
    *answer = [length, frame];
    number
}

// The answer where there is no word: the C interface needs a number, and this one is above every word of 16 bits.
const NO_WORD: u32 = 0x10000;

// The word of an input register with these selections and this gate.
#[unsafe(no_mangle)]
pub extern "C" fn mirvacula_input_word(up: u16, down: u16, gate: u16) -> u32
    ensures { result ≡ input_word_of up down gate }
{
    patching::input_word(up, down, gate).map_or(NO_WORD, u32::from)
}

// The word of a counter's group register with this group for the counter.
#[unsafe(no_mangle)]
pub extern "C" fn mirvacula_group_word(word: u16, counter: u16, group: u16) -> u32
    ensures { result ≡ group_word_of word counter group }
{
    patching::group_word(word, counter, group).map_or(NO_WORD, u32::from)
}

// Starts a sliding sum on a lent ring, its state in lent words.
#[unsafe(no_mangle)]
pub extern "C" fn mirvacula_sum_start(state: &mut [u64], ring: &mut [i64], window: u64) -> u16
    ensures { lent_start result state.new ring.new ≡ sum_start_of state.old ring.old window }
{
    lent::sum_start(state, ring, window)
}

// Feeds a sample into a sliding sum.
#[unsafe(no_mangle)]
pub extern "C" fn mirvacula_sum_sample(
    state: &mut [u64],
    ring: &mut [i64],
    sample: i32,
    sum: &mut [i64],
) -> u16
    ensures { lent_sample result state.new ring.new sum.new ≡ sum_sample_of state.old ring.old sample sum.old }
{
    lent::sum_sample(state, ring, sample, sum)
}
