// Captures of the pulse recorder become traces of tick records. No crate is seen here.
#![tactic(auto)]

ghost use Rattle.std.specs.Prelude.{◌≡◌, Some};
ghost use Rattle.captures.specs.Captures.{cause_of, conversion, conversion_of};
ghost use Rattle.captures.specs.Sentences.{sentence};

mod frames;
mod traces;

use causes::Cause;
pub use frames::FRAME_BYTES;
use std::error::Error;
use std::fmt;
pub use traces::RECORD_BYTES;
use traces::{trace_bytes, write_trace};

// Why a capture is refused, in the order of the checks.
#[derive(Clone, Copy, Debug, PartialEq, Eq)]
pub enum Refusal {
    NotFrames,
    // the first frame with a level on a line that does not exist, the first being 0
    BadLevel { frame: usize },
    NoRoom,
}

// Its place in the table of causes.
impl From<Refusal> for Cause {
    ghost from_gives = { λ why cause. cause ≡ cause_of why };

    fn from(why: Refusal) -> Cause {
        match why {
            Refusal::NotFrames => Cause::NotFrames,
            Refusal::BadLevel { .. } => Cause::Level,
            Refusal::NoRoom => Cause::NoRoom,
        }
    }
}

impl fmt::Display for Refusal {
    ghost output = { λ why. Some (sentence why) };

    fn fmt<W: fmt::Write>(&self, f: &mut fmt::Formatter<W>) -> fmt::Result {
        match self {
            Refusal::NotFrames => write!(
                f,
                "the capture is not of whole frames of nine bytes (12)"
            ),
            Refusal::BadLevel { frame } => write!(
                f,
                "frame {frame}: a line that does not exist (6)"
            ),
            Refusal::NoRoom => write!(f, "the output is shorter than the trace (13)"),
        }
    }
}

impl Error for Refusal {}

// A capture becomes a trace; the answer is the trace's length in bytes. Causes in order: not a multiple of nine bytes, a bad level, too short
// an output.
pub fn convert(capture: &[u8], out: &mut [u8]) -> Result<usize, Refusal>
    ensures { conversion result out.new ≡ conversion_of capture.now out.old }
{
    let (frames, ragged) = capture.as_chunks();
    if !ragged.is_empty() {
        return Err(Refusal::NotFrames);
    }
    let bytes = trace_bytes(frames)?;
    if out.len() < bytes {
        return Err(Refusal::NoRoom);
    }
    write_trace(frames, out);
    Ok(bytes)
}
