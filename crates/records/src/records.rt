// The records of a trace, each decoded from the bytes at an offset.
ghost use Rattle.std.specs.Prelude.{◌≡◌};
ghost use Rattle.records.specs.Records.{record_at};

use crate::Record;
use crate::kind::Kind;
use causes::Cause;

// The record at an offset, none at the end of the trace, or the cause that stops a run before it. Causes in order: header cut, unknown tag,
// wrong length, payload cut, repeat 0.
#[tactic(auto, unfolding(crate::specs::Records::record_at))]
pub fn record_at(t: &[u8], at: usize) -> Result<Option<Record>, Cause>
    ensures { result ≡ record_at t.now at }
{
    match t.get(at..) {
        None | Some([]) => Ok(None),
        Some([tag, high, low, payload @ ..]) => {
            let kind = Kind::try_from(*tag)?;
            if u16::from_be_bytes([*high, *low]) != kind.payload_bytes() {
                return Err(Cause::WrongLength);
            }
            Ok(Some(kind.read(payload)?))
        }
        Some(_) => Err(Cause::Cut),
    }
}
