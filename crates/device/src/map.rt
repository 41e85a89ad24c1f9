// What stands at an address of the register map.
ghost use Rattle.std.specs.Prelude.{◌≡◌, ◌≤◌};
ghost use Rattle.device.specs.Map.{output_block, backplane_map, status_map, control_map, event_map, counter_map, decode_of};

use crate::state::OUTPUT_WORDS;

// A register by the part of the state that a write to it changes, so that a new register joins a part.
#[derive(Clone, Copy)]
pub enum Register {
    // no part: read-only
    Readout(ReadoutWord),
    // the settings, which are in no counter's sheet
    Setting(SettingWord),
    // what all counters share
    Shared(SharedWord),
    Gates(GateWord),
    // word k of the watchdogs' reset bits
    Watchdogs(u16),
    Input(u16),
    Group(u16),
    // a word of the threshold memory
    Word(u16),
}

#[derive(Clone, Copy)]
pub enum ReadoutWord {
    Module(u16),
    Negative(u16),
    Positive(u16),
    GateErrors,
    WatchdogErrors(u16),
    GateInputs,
    GateOutputs,
    Outputs,
    GateStates(u16),
    TagLow,
    TagHigh,
    Code,
    LoaderState,
    LoaderCounter,
    QueueLength,
    Count(u16),
    Raw(u16),
    Threshold(u16),
}

#[derive(Clone, Copy)]
pub enum SettingWord {
    Mask(u16),
    WatchdogTimeout,
    // a word of an output's block, which has 22
    Selection { output: u16, place: u16 },
}

#[derive(Clone, Copy)]
pub enum SharedWord {
    Control,
    Key,
    Enable,
    Reload,
}

#[derive(Clone, Copy)]
pub enum GateWord {
    Mode,
    Timeout(u16),
    Prepare,
    Recover,
}

// A page's function takes a whole address, and promises what stands there from the page's first one on: by the place within the page, and by one
// match for all pages, a read took more instructions.

// Addresses up to 0x06FF.
#[tactic(auto, using(bools::proofs::Tests::tests), unfolding(crate::specs::Map::backplane_map))]
fn backplane_map(a: u16) -> Option<Register>
    ensures { result ≡ backplane_map a }
{
    match a {
        0x0630..=0x0635 => Some(Register::Setting(SettingWord::Mask(a - 0x0630))),
        0x0638..=0x063D => Some(Register::Readout(ReadoutWord::Module(a - 0x0638))),
        _ => None,
    }
}

// 0x0700 to 0x07FF.
#[tactic(auto, using(bools::proofs::Tests::tests), unfolding(crate::specs::Map::status_map))]
fn status_map(a: u16) -> Option<Register>
    ensures { 0x0700 ≤ a → result ≡ status_map a }
{
    let word = match a {
        0x0700..=0x0707 => ReadoutWord::Negative(a - 0x0700),
        0x0708..=0x070F => ReadoutWord::Positive(a - 0x0708),
        0x0710 => ReadoutWord::GateErrors,
        0x0711..=0x0714 => ReadoutWord::WatchdogErrors(a - 0x0711),
        0x0717 => ReadoutWord::GateInputs,
        0x0718 => ReadoutWord::GateOutputs,
        0x0719 => ReadoutWord::Outputs,
        0x071A..=0x071C => ReadoutWord::GateStates(a - 0x071A),
        _ => return None,
    };
    Some(Register::Readout(word))
}

// 0x0800 to 0x08FF.
#[tactic(auto, using(bools::proofs::Tests::tests), unfolding(crate::specs::Map::control_map))]
fn control_map(a: u16) -> Option<Register>
    ensures { 0x0800 ≤ a → result ≡ control_map a }
{
    match a {
        0x0800 => Some(Register::Setting(SettingWord::WatchdogTimeout)),
        0x0801 => Some(Register::Shared(SharedWord::Control)),
        0x0802 => Some(Register::Gates(GateWord::Mode)),
        0x0804..=0x080F => Some(Register::Gates(GateWord::Timeout(a - 0x0804))),
        0x0810..=0x0813 => Some(Register::Watchdogs(a - 0x0810)),
        _ => None,
    }
}

// 0x0900 to 0x0FFF.
#[tactic(auto, using(bools::proofs::Tests::tests), unfolding(crate::specs::Map::event_map))]
fn event_map(a: u16) -> Option<Register>
    ensures { 0x0900 ≤ a → result ≡ event_map a }
{
    match a {
        0x0900 => Some(Register::Readout(ReadoutWord::TagLow)),
        0x0901 => Some(Register::Readout(ReadoutWord::TagHigh)),
        0x0902 => Some(Register::Readout(ReadoutWord::Code)),
        0x0903 => Some(Register::Readout(ReadoutWord::LoaderState)),
        0x0904 => Some(Register::Readout(ReadoutWord::LoaderCounter)),
        0x0905 => Some(Register::Readout(ReadoutWord::QueueLength)),
        0x0A00 => Some(Register::Shared(SharedWord::Key)),
        0x0A01 => Some(Register::Shared(SharedWord::Enable)),
        0x0A02 => Some(Register::Shared(SharedWord::Reload)),
        0x0A03 => Some(Register::Gates(GateWord::Prepare)),
        0x0A04 => Some(Register::Gates(GateWord::Recover)),
        _ => None,
    }
}

// An output's block, k addresses from 0x1100.
#[tactic(auto, using(bools::proofs::Tests::tests))]
fn output_block(k: u16) -> Option<Register>
    ensures { result ≡ output_block k }
{
    let (output, place) = (k / 32, k % 32);
    if usize::from(place) < OUTPUT_WORDS {
        return Some(Register::Setting(SettingWord::Selection { output, place }));
    }
    None
}

// 0x1000 on.
#[tactic(auto, using(bools::proofs::Tests::tests), unfolding(crate::specs::Map::counter_map))]
fn counter_map(a: u16) -> Option<Register>
    ensures { 0x1000 ≤ a → result ≡ counter_map a }
{
    match a {
        0x1000..=0x107F => Some(Register::Input(a - 0x1000)),
        0x1100..=0x11BF => output_block(a - 0x1100),
        0x1200..=0x12FF => Some(Register::Readout(ReadoutWord::Count(a - 0x1200))),
        0x1300..=0x136B => Some(Register::Readout(ReadoutWord::Raw(a - 0x1300))),
        0x1600..=0x161F => Some(Register::Group(a - 0x1600)),
        0x1800..=0x19FF => Some(Register::Readout(ReadoutWord::Threshold(a - 0x1800))),
        0x8000..=0xBFFF => Some(Register::Word(a - 0x8000)),
        _ => None,
    }
}

// What stands at an address. Inlined, as its cases then lead straight into those of a read or a write: a short run with its image takes 31% fewer
// instructions.
#[inline(always)]
#[tactic(auto, using(bools::proofs::Tests::tests), unfolding(crate::specs::Map::decode_of))]
pub fn decode(a: u16) -> Option<Register>
    ensures { result ≡ decode_of a }
{
    match a {
        0..=0x06FF => backplane_map(a),
        0x0700..=0x07FF => status_map(a),
        0x0800..=0x08FF => control_map(a),
        0x0900..=0x0FFF => event_map(a),
        _ => counter_map(a),
    }
}
