// What the library's functions are lent as words by programs in C and Rust: the state of a sliding sum.
#![tactic(auto)]

ghost use Rattle.std.specs.Prelude.{◌≡◌};
ghost use Rattle.lent.specs.Sums.{lent_start, state_in, lent_sample, sum_sample_of, sum_start_of, words_of};

use causes::Cause;
use sums::Sliding;

// The calls answer by a number and not by a `Result`, since `mirvacula` hands it on to C as it is: this, that of a refusal, or the next.
const DONE: u16 = 0;

// Something lent has the wrong length.
pub const BAD_BUFFER: u16 = 255;

// A state as three words: window, place, and the sum in two's complement. A function and no `From`, since neither type is this package's.
fn words_of(state: Sliding) -> [u64; 3]
    ensures { result ≡ words_of state }
{
    [
        state.window as u64,
        state.place as u64,
        state.sum.cast_unsigned(),
    ]
}

// The state that three words are.
#[tactic(auto, unfolding(crate::specs::Sums::state_in))]
fn state_in(words: [u64; 3]) -> Sliding
    ensures value { result ≡ state_in words }
    ensures back { words_of result ≡ words }
{
    let [window, place, sum] = words;
    Sliding {
        window: window as usize,
        place: place as usize,
        sum: sum.cast_signed(),
    }
}

// Starts a sliding sum on a ring. Nothing is done where the state is not of 3 words.
#[tactic(auto, unfolding(crate::specs::Sums::sum_start_of))]
pub fn sum_start(state: &mut [u64], ring: &mut [i64], window: u64) -> u16
    ensures { lent_start result state.new ring.new ≡ sum_start_of state.old ring.old window }
{
    let Some(state) = state.as_mut_array() else {
        return BAD_BUFFER;
    };
    match Sliding::start(window as usize, ring) {
        Ok(started) => {
            *state = words_of(started);
            DONE
        }
        // On a state of no window every sample is refused.
        Err(refusal) => {
            *state = words_of(Sliding::default());
            Cause::from(refusal).into()
        }
    }
}

// Feeds a sample in. Nothing is done where the state is not of 3 words or the sum not of 1.
#[tactic(auto, unfolding(crate::specs::Sums::sum_sample_of, sums::specs::Sums::sample_of))]
pub fn sum_sample(state: &mut [u64], ring: &mut [i64], sample: i32, sum: &mut [i64]) -> u16
    ensures { lent_sample result state.new ring.new sum.new ≡ sum_sample_of state.old ring.old sample sum.old }
{
    let Some(state) = state.as_mut_array() else {
        return BAD_BUFFER;
    };
    let Some(sum) = sum.as_mut_array() else {
        return BAD_BUFFER;
    };
    let mut sliding = state_in(*state);
    match sliding.sample(ring, sample) {
        Ok(total) => {
            *state = words_of(sliding);
            *sum = [total];
            DONE
        }
        Err(refusal) => {
            *sum = [0];
            Cause::from(refusal).into()
        }
    }
}
