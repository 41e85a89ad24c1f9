// The scan of the selection words. All six outputs go up together, so that the signals of a word are worked out once at most, and only
// where an output that is still 1 selects some of them. Of each output is kept where its scan ended: the number of words read by which
// it is 0, and none while it is 1. No word of an output is read once its scan has ended.
ghost use Rattle.std.specs.Prelude.{◌≡◌, ◌<◌};
ghost use Rattle.lists.specs.Table.{tabulate};
ghost use Rattle.interlocks.specs.Interlock.{interlocks};
ghost use Rattle.interlocks.specs.Scan.{scanned};
ghost use Rattle.interlocks.specs.Together.{ended_at, ended_next, words_next};

use crate::signals::{meet, signals};
use device::{Crate, OUTPUT_WORDS, OUTPUTS};
use std::array;

// The selection words of an output.
const WORDS: u16 = OUTPUT_WORDS as u16;

// What a scan tells of an output: its level, and how many of its selection words were read. An output that is 1 has all 22 read. Callers want
// both, so they would take an Option apart at once.
#[derive(Clone, Copy)]
pub struct OutputScan {
    pub level: bool,
    pub words: u16,
}

// Word k of each output that is still 1; no signal for the others.
fn words_next(
    ended: &[Option<u16>; OUTPUTS],
    selections: &[[u16; OUTPUT_WORDS]; OUTPUTS],
    k: u16,
) -> [u16; OUTPUTS]
    requires { k < 22 }
    ensures { result ≡ words_next ended.now selections.now k }
{
    array::from_fn(|o| match ended[o] {
        None => selections[o][usize::from(k)],
        Some(_) => 0,
    })
}

// Where the scans ended, after one more word of the outputs that are still 1: so many were read.
fn ended_next(
    ended: &[Option<u16>; OUTPUTS],
    words: &[u16; OUTPUTS],
    present: u16,
    read: u16,
) -> [Option<u16>; OUTPUTS]
    ensures { result ≡ ended_next ended.now words.now present read }
{
    array::from_fn(|o| {
        if meet(words[o], present) {
            Some(read)
        } else {
            ended[o]
        }
    })
}

// Where the scans ended, after all words.
fn ended(s: &Crate) -> [Option<u16>; OUTPUTS]
    ensures { result ≡ tabulate 6 (ended_at s.now) }
{
    let mut ended = [None; OUTPUTS];
    for k in 0..WORDS {
        let words = words_next(&ended, &s.settings.selections, k);
        if words != [0; OUTPUTS] {
            // a name of its own first: an array set from a call on itself has no proof rule
            let next = ended_next(&ended, &words, signals(s, k), k + 1);
            ended = next;
        }
    }
    ended
}

// Register 0x0719: output o is 1 where none of its selected signals is present.
pub fn outputs(s: &Crate) -> u16
    ensures { result ≡ interlocks s.now }
{
    let ended = ended(s);
    words::from_bits(OUTPUTS, |o| ended[o].is_none())
}

// Of each output its level, and how many of its words are read to know it.
pub fn scan_outputs(s: &Crate) -> [OutputScan; OUTPUTS]
    ensures { result ≡ scanned s.now }
{
    let ended = ended(s);
    array::from_fn(|o| OutputScan {
        level: ended[o].is_none(),
        words: ended[o].unwrap_or(WORDS),
    })
}
