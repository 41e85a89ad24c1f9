// Tick records as bytes, and the trace of a capture.
ghost use Rattle.std.specs.Prelude.{◌≡◌, ◌++◌, ◌≤◌, length, drop};
ghost use Rattle.captures.specs.Nine.{bytes_in, repeat_of, trace_in};
ghost use Rattle.captures.specs.Written.{record_bytes, record_length};

use crate::Refusal;
use crate::frames::{FRAME_BYTES, Nine, Repeat, Repeats};

// A tick record: header, repeat, levels.
pub const RECORD_BYTES: usize = 14;

// Its tag, and the length of what follows.
const HEADER: [u8; 3] = [0x01, 0, 11];

impl Repeat {
    // Its tick record, over a place of that length.
    fn put(self, place: &mut [u8])
        requires { length place.old ≡ record_length }
        ensures { place.new ≡ record_bytes (repeat_of self) }
    {
        place[..3].copy_from_slice(&HEADER);
        place[3..5].copy_from_slice(&self.times.to_be_bytes());
        place[5..13].copy_from_slice(&self.frame.head.to_be_bytes());
        place[13] = self.frame.last;
    }
}

// How long the trace of frames is, which has to be known before its first byte is written; or the first frame with a level on a line
// that does not exist.
pub fn trace_bytes(frames: &[[u8; FRAME_BYTES]]) -> Result<usize, Refusal>
    ensures { result ≡ bytes_in frames.now }
{
    let bad = |bytes: &[u8; FRAME_BYTES]| Nine::from(bytes).is_bad();
    if let Some(frame) = frames.iter().position(bad) {
        return Err(Refusal::BadLevel { frame });
    }
    Ok(RECORD_BYTES * Repeats::of(frames).count())
}

// The trace of frames, over an output that has room for it; bytes past it stay.
pub fn write_trace(frames: &[[u8; FRAME_BYTES]], out: &mut [u8])
    requires { length (trace_in frames.now) ≤ length out.old }
    ensures { out.new ≡ trace_in frames.now ++ drop (length (trace_in frames.now)) out.old }
{
    for (record, repeat) in Repeats::of(frames).enumerate() {
        // by index: a part lent out by `chunks_exact_mut` says nothing of what it ends as
        let at = RECORD_BYTES * record;
        repeat.put(&mut out[at..at + RECORD_BYTES]);
    }
}
