// The kinds of records, told by the tag byte.
ghost use Rattle.std.specs.Prelude.{◌≡◌, MatchResult, false};
ghost use Rattle.records.specs.Kinds.{found, payload_read, kind_tag};
ghost use Rattle.records.specs.Records.{is_known, payload_at, payload_bytes};
ghost use Rattle.causes.specs.declared.Cause.TheVariants.{UnknownTag};

use crate::Record;
use causes::Cause;
use lines::Levels;

#[derive(Clone, Copy)]
pub enum Kind {
    Ticks,
    Write,
    Tag,
}

impl TryFrom<u8> for Kind {
    type Error = Cause;

    ghost try_from_gives = { λ tag answer. MatchResult answer (λ kind. tag ≡ kind_tag kind) (λ cause. (is_known tag ≡ false) × (cause ≡ UnknownTag)) };

    fn try_from(tag: u8) -> Result<Kind, Cause> {
        match tag {
            1 => Ok(Kind::Ticks),
            2 => Ok(Kind::Write),
            3 => Ok(Kind::Tag),
            _ => Err(Cause::UnknownTag),
        }
    }
}

impl Kind {
    // The length of its payload in bytes.
    pub fn payload_bytes(self) -> u16
        ensures { result ≡ payload_bytes (kind_tag self) }
    {
        match self {
            Kind::Ticks => 11,
            Kind::Write | Kind::Tag => 4,
        }
    }

    // The record of its payload, which may be cut: numbers are of so many bytes, high byte first.
    #[tactic(auto, unfolding(crate::specs::Records::payload_at, crate::specs::Records::ticks_at, crate::specs::Records::levels_at, crate::specs::Records::number_at))]
    pub fn read(self, payload: &[u8]) -> Result<Record, Cause>
        ensures { found result ≡ payload_read self payload.now }
    {
        match (self, payload) {
            (Kind::Ticks, [r1, r0, i6, i5, i4, i3, i2, i1, i0, g1, g0, ..]) => {
                let repeat = u16::from_be_bytes([*r1, *r0]);
                let inputs = u64::from_be_bytes([0, *i6, *i5, *i4, *i3, *i2, *i1, *i0]);
                let gates = u16::from_be_bytes([*g1, *g0]);
                if repeat == 0 {
                    return Err(Cause::NoRepeat);
                }
                Ok(Record::Ticks {
                    repeat: u64::from(repeat),
                    levels: Levels { inputs, gates },
                })
            }
            (Kind::Write, [a1, a0, w1, w0, ..]) => Ok(Record::Write {
                address: u16::from_be_bytes([*a1, *a0]),
                word: u16::from_be_bytes([*w1, *w0]),
            }),
            (Kind::Tag, [t3, t2, t1, t0, ..]) => Ok(Record::Tag {
                tag: u32::from_be_bytes([*t3, *t2, *t1, *t0]),
            }),
            _ => Err(Cause::Cut),
        }
    }
}
