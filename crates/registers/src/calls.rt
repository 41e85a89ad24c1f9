// The calls on a crate. Each is lent the threshold memory and refuses one that is not of 16,384 words. Crate and memory stay two arguments:
// the memory is lent anew with every call, of whatever length, and a type that held both would ask for the right length of callers.
ghost use Rattle.std.specs.Prelude.{◌≡◌};
ghost use Rattle.registers.specs.Calls.{answer, step, powered, powered_memory};
ghost use Rattle.registers.specs.Calls.{tick as call_tick, write as call_write, tag as call_tag, download as call_download};
ghost use Rattle.interlocks.specs.Scan.{scan_of};
ghost use Rattle.reading.specs.Read.{read_of};
ghost use Rattle.device.specs.State.{machine};

use causes::Cause;
use device::{Crate, OUTPUTS};
use interlocks::OutputScan;
use lines::Levels;
use loader::{Dataset, MEMORY_WORDS};

// Power-up: a new crate, and a memory of zeros. A refused one gives a crate too, so the answer is a pair and no `Result` of a crate.
#[tactic(auto, unfolding(crate::specs::Calls::powered, crate::specs::Calls::powered_memory, device::specs::State::memory0))]
pub fn power_up(mem: &mut [u16]) -> (Crate, Result<(), Cause>)
    ensures { (result ≡ powered mem.old) × (mem.new ≡ powered_memory mem.old) }
{
    let state = Crate::default();
    let Some(mem) = mem.as_mut_array::<MEMORY_WORDS>() else {
        return (state, Err(Cause::Memory));
    };
    loader::clear_memory(mem);
    (state, Ok(()))
}

// A read: the word at an address.
#[tactic(auto, unfolding(reading::specs::Read::read_of))]
pub fn read(state: &Crate, mem: &[u16], address: u16) -> Result<u16, Cause>
    ensures { result ≡ read_of (machine state.now mem.now) address }
{
    let register = device::decode(address);
    let mem = mem.as_array::<MEMORY_WORDS>().ok_or(Cause::Memory)?;
    Ok(reading::word_in(state, mem, register.ok_or(Cause::Address)?))
}

// A scan of the six outputs: levels and words read.
#[tactic(auto, unfolding(interlocks::specs::Scan::scan_of))]
pub fn scan(state: &Crate, mem: &[u16]) -> Result<[OutputScan; OUTPUTS], Cause>
    ensures { result ≡ scan_of (machine state.now mem.now) }
{
    if mem.len() == MEMORY_WORDS {
        Ok(interlocks::scan_outputs(state))
    } else {
        Err(Cause::Memory)
    }
}

// A write of a word to an address.
#[tactic(auto, unfolding(crate::specs::Calls::answer, crate::specs::Calls::step, crate::specs::Calls::call_answer, crate::specs::Calls::called))]
pub fn write(state: &mut Crate, mem: &mut [u16], address: u16, word: u16) -> Result<(), Cause>
    ensures { (result ≡ answer (machine state.old mem.old) (call_write address word)) × (machine state.new mem.new ≡ step (machine state.old mem.old) (call_write address word)) }
{
    let mem = mem.as_mut_array::<MEMORY_WORDS>().ok_or(Cause::Memory)?;
    let register = device::decode(address).ok_or(Cause::Address)?;
    writing::write_at(state, mem, register, word)
}

// An event tag.
#[tactic(auto, unfolding(crate::specs::Calls::answer, crate::specs::Calls::step, crate::specs::Calls::call_answer, crate::specs::Calls::called))]
pub fn tag(state: &mut Crate, mem: &[u16], t: u32) -> Result<(), Cause>
    ensures { (result ≡ answer (machine state.old mem.now) (call_tag t)) × (machine state.new mem.now ≡ step (machine state.old mem.now) (call_tag t)) }
{
    if mem.len() != MEMORY_WORDS {
        return Err(Cause::Memory);
    }
    tagging::tag_crate(state, t)
}

// A tick at these levels of inputs and gates.
#[tactic(auto, unfolding(crate::specs::Calls::answer, crate::specs::Calls::step, crate::specs::Calls::call_answer, crate::specs::Calls::called))]
pub fn tick(state: &mut Crate, mem: &[u16], levels: Levels) -> Result<(), Cause>
    ensures { (result ≡ answer (machine state.old mem.now) (call_tick levels.inputs levels.gates)) × (machine state.new mem.now ≡ step (machine state.old mem.now) (call_tick levels.inputs levels.gates)) }
{
    let mem = mem.as_array().ok_or(Cause::Memory)?;
    if levels.are_bad() {
        return Err(Cause::Level);
    }
    ticking::tick_crate(state, mem, levels);
    Ok(())
}

// A download of 512 words to a dataset; the crate stays.
#[tactic(auto, unfolding(crate::specs::Calls::answer, crate::specs::Calls::step, crate::specs::Calls::call_answer, crate::specs::Calls::called, crate::specs::Calls::download_answer))]
pub fn download(state: &Crate, mem: &mut [u16], dataset: u16, words: &[u16]) -> Result<(), Cause>
    ensures { (result ≡ answer (machine state.now mem.old) (call_download dataset words.now)) × (machine state.now mem.new ≡ step (machine state.now mem.old) (call_download dataset words.now)) }
{
    let mem = mem.as_mut_array().ok_or(Cause::Memory)?;
    let words = words.as_array().ok_or(Cause::Length)?;
    let dataset = Dataset::new(dataset.into()).ok_or(Cause::Dataset)?;
    loader::download(mem, dataset, words);
    Ok(())
}
