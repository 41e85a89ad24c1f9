// Turns the capture on standard input, at most 131,072 frames, into a trace on standard output. What is written for the bytes read is
// `captures::convert`. A refusal is told on standard error and nothing is written; so is a failure to read or write.
#![tactic(auto)]

ghost use Rattle.std.specs.Prelude.{◌≡◌, length};

use captures::{FRAME_BYTES, RECORD_BYTES};

// Frames of the longest capture.
const FRAMES: usize = 131_072;

// Its bytes.
const LIMIT: usize = FRAME_BYTES * FRAMES;

// The longest capture and one byte more, which tells that there are too many.
const ROOM: usize = LIMIT + 1;

// The trace of the longest capture, whatever it holds: a record a frame.
const TRACE: usize = RECORD_BYTES * FRAMES;

// Room for so many bytes. A function, as the prover counts the elements of an array that stands in `main`, and there are too many.
fn space<const N: usize>() -> [u8; N]
    ensures { N ≡ length result }
{
    [0; N]
}

fn main(rt: HostRuntime) {
    let mut buf = space::<ROOM>();
    let Ok(capture) = standard_input::read_input(&mut rt.stdin(), &mut buf) else {
        let _ = rt.eprintln("convert: cannot read standard input");
        return;
    };
    if LIMIT < capture.len() {
        let _ = rt.eprintln("convert: the capture is longer than 1179648 bytes (131072 frames)");
        return;
    }
    let mut out = space::<TRACE>();
    match captures::convert(capture, &mut out) {
        Ok(bytes) => {
            if rt.write_all(&out[..bytes]).is_err() {
                let _ = rt.eprintln("convert: cannot write standard output");
            }
        }
        // the room for a trace is enough for every capture that is read, so `NoRoom` is not met
        Err(why) => {
            let _ = eprintln!(rt; "convert: {why}");
        }
    }
}
