// The records of a trace, and why a run of them stops.
#![tactic(auto)]

ghost use Rattle.std.specs.Prelude.{◌≡◌};
ghost use Rattle.records.specs.Records.{bytes_taken};
ghost use Rattle.records.specs.Stops.{stop_number};
ghost use Rattle.records.specs.declared.Stop.TheVariants.{Refused};

mod kind;
mod records;

use causes::Cause;
use kind::Kind;
use lines::Levels;
pub use records::record_at;

// Why a run ends.
#[derive(Clone, Copy, PartialEq, Eq)]
pub enum Stop {
    // at the end of the trace
    End,
    // before a tick record with more ticks than are left
    Spent,
    Refused(Cause),
}

impl From<Cause> for Stop {
    ghost from_gives = { λ cause stop. stop ≡ Refused cause };

    fn from(cause: Cause) -> Self {
        Self::Refused(cause)
    }
}

// The number of the table of causes, in which END and SPENT, being no refusals, have none: 0 and 254 tell them apart.
impl From<Stop> for u16 {
    ghost from_gives = { λ stop number. number ≡ stop_number stop };

    fn from(stop: Stop) -> u16 {
        match stop {
            Stop::End => 0,
            Stop::Spent => 254,
            Stop::Refused(cause) => u16::from(cause),
        }
    }
}

// A record of a trace.
#[derive(Clone, Copy)]
pub enum Record {
    Ticks { repeat: u64, levels: Levels },
    Write { address: u16, word: u16 },
    Tag { tag: u32 },
}

impl Record {
    // What it takes in a trace: a header of three bytes, and the payload.
    pub fn bytes(self) -> usize
        ensures { result ≡ bytes_taken self }
    {
        let kind = match self {
            Record::Ticks { .. } => Kind::Ticks,
            Record::Write { .. } => Kind::Write,
            Record::Tag { .. } => Kind::Tag,
        };
        3 + usize::from(kind.payload_bytes())
    }
}
