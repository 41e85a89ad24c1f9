// The crate's state: what each counter and gate has, what all counters share, and what no counter sees: the settings, which writes
// alone change, and the status, which ticks and tags alone change. The defaults are those of power-up.
ghost use Rattle.std.specs.Prelude.{◌≡◌};
ghost use Rattle.device.specs.State.{power_up, settings0, status0};

use counters::{COUNTERS, Counter};
use gates::Gate;
use lines::{GATES, INPUTS, SIGNALS};
use loader::{GROUP_WORDS, Queue, Reload};
use watchdogs::Watchdog;

// The interlock outputs, and the selection words of each; the mask registers, two slots each.
pub const OUTPUTS: usize = 6;

pub const OUTPUT_WORDS: usize = 22;

const MASKS: usize = 6;

#[derive(Clone, Copy)]
pub struct Crate {
    pub counters: [Counter; COUNTERS],
    // registers 0x1600 to 0x161F, four bits a counter; as words, since in the counters each read would put one together from four and each
    // write would take one apart
    pub groups: [u16; GROUP_WORDS],
    pub gates: [Gate; GATES],
    // apart from the raw counts: each is stepped, reset and read by itself, and nothing takes both of one input
    pub watchdogs: [Watchdog; INPUTS],
    // the input levels of the last tick; every counter sees them, and no counter sees the gate levels in `status`, so they are not one `Levels`
    pub levels: u64,
    pub common: Common,
    pub settings: Settings,
    pub status: Status,
}

// By hand: with the derived one the proof that its 128 counters and twelve gates are those of power-up does not close.
impl Default for Crate {
    ghost is_default = { λ s. s ≡ power_up };

    #[tactic(auto, unfolding(crate::specs::State::power_up, lists::specs::Table::tabulate, lists::specs::Table::table_from))]
    fn default() -> Crate {
        Crate {
            counters: [Counter::default(); COUNTERS],
            groups: [0; GROUP_WORDS],
            gates: [Gate::default(); GATES],
            watchdogs: [Watchdog::default(); INPUTS],
            levels: 0,
            common: Common::default(),
            settings: Settings::default(),
            status: Status::default(),
        }
    }
}

// What all counters share, so that every counter's sheet has it whole.
#[derive(Clone, Copy, Default)]
pub struct Common {
    // registers 0x0801, 0x0A00, 0x0A01 and 0x0A02
    pub control: u16,
    pub key: u16,
    pub enable: u16,
    pub reload: u16,
    pub queue: Queue,
    // the reload that the loader works on, none while it is idle
    pub loader: Option<Reload>,
    pub phases: [u32; SIGNALS],
}

// What writes alone change and no counter sees.
#[derive(Clone, Copy)]
pub struct Settings {
    // registers 0x0630 to 0x0635, 0x0800, and 22 of each output's block
    pub masks: [u16; MASKS],
    pub timeout: u16,
    pub selections: [[u16; OUTPUT_WORDS]; OUTPUTS],
}

impl Default for Settings {
    ghost is_default = { λ s. s ≡ settings0 };

    #[tactic(auto, unfolding(lists::specs::Table::tabulate, lists::specs::Table::table_from))]
    fn default() -> Settings {
        Settings {
            masks: [0; MASKS],
            timeout: 65535,
            selections: [[0; OUTPUT_WORDS]; OUTPUTS],
        }
    }
}

// What ticks and tags alone change and no counter sees.
#[derive(Clone, Copy)]
pub struct Status {
    // registers 0x1300 to 0x136B: how often each input has risen since power-up, modulo 2^32
    pub rawcounts: [u32; INPUTS],
    // the gate levels of the last tick
    pub gatelevels: u16,
    pub events: Events,
}

impl Default for Status {
    ghost is_default = { λ s. s ≡ status0 };

    #[tactic(auto, unfolding(lists::specs::Table::tabulate, lists::specs::Table::table_from))]
    fn default() -> Status {
        Status {
            rawcounts: [0; INPUTS],
            gatelevels: 0,
            events: Events::default(),
        }
    }
}

// The last tag, the last accepted tag, and the last counter handled by the loader: 0x0900 to 0x0902 and 0x0904.
#[derive(Clone, Copy, Default)]
pub struct Events {
    pub low: u16,
    pub high: u16,
    pub code: u16,
    pub handled: u16,
}
