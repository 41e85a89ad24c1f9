// Sliding sums: of the samples that are fed in, the sum over the last W. No crate is seen here.
#![tactic(auto)]

ghost use Rattle.std.specs.Prelude.{◌≡◌, ◌+◌, ◌%◌, ◌<◌, is_ok, length};
ghost use Rattle.sums.specs.Sums.{cause_of, is_ready, next_sum, sample_of, sample_outcome, start_of, start_outcome};

use causes::Cause;
use std::mem;

// A window out of its range, a ring that is shorter, or a place that is not in the window.
#[derive(Clone, Copy, Debug, PartialEq, Eq)]
pub struct BadSum;

// 02, CR 4: "W outside its range, the ring shorter than W, or a state whose place in the ring is not below W, 14".
impl From<BadSum> for Cause {
    ghost from_gives = { λ refusal cause. cause ≡ cause_of refusal };

    fn from(_refusal: BadSum) -> Cause {
        Cause::BadSum
    }
}

const LARGEST_WINDOW: usize = 65536;

// The window W, the place of the oldest sample in the ring, and the sum. The default has no window, so no sample is taken on it. The ring stays
// beside it: the C interface lends it anew with every call.
#[derive(Clone, Copy, Debug, Default, PartialEq, Eq)]
pub struct Sliding {
    pub window: usize,
    pub place: usize,
    pub sum: i64,
}

impl Sliding {
    // Starts a sliding sum on a lent ring.
    #[tactic(auto, unfolding(crate::specs::Sums::start_of, crate::specs::Sums::is_ready))]
    pub fn start(window: usize, ring: &mut [i64]) -> Result<Sliding, BadSum>
        ensures { start_outcome result ring.new ≡ start_of window ring.old }
    {
        let sliding = Sliding {
            window,
            place: 0,
            sum: 0,
        };
        sliding.check(ring)?;
        ring[..window].fill(0);
        Ok(sliding)
    }

    // Feeds a sample in, and gives the sum with it.
    #[tactic(auto, unfolding(crate::specs::Sums::sample_of, crate::specs::Sums::is_ready))]
    pub fn sample(&mut self, ring: &mut [i64], newest: i32) -> Result<i64, BadSum>
        ensures { sample_outcome result self.new ring.new ≡ sample_of self.old ring.old newest }
    {
        self.check(ring)?;
        let word = i64::from(newest);
        let oldest = mem::replace(&mut ring[self.place], word);
        self.sum = next_sum(self.sum, word, oldest);
        self.place = next_place(self.place, self.window);
        Ok(self.sum)
    }

    // The window is in its range and in the ring, and the place in the window.
    #[tactic(auto, unfolding(crate::specs::Sums::is_ready))]
    fn check(&self, ring: &[i64]) -> Result<(), BadSum>
        ensures { is_ok result ≡ is_ready self.now.window self.now.place (length ring.now) }
    {
        let ranged = (1..=LARGEST_WINDOW).contains(&self.window);
        if ranged && self.window <= ring.len() && self.place < self.window {
            Ok(())
        } else {
            Err(BadSum)
        }
    }
}

// The place after a place. A remainder would be shorter; with a division a sample takes 1.2 times as long.
fn next_place(place: usize, window: usize) -> usize
    requires { place < window }
    ensures { result ≡ (place + 1) % window }
{
    if place + 1 == window { 0 } else { place + 1 }
}

// A sum with a sample more and the oldest one less; it wraps at both ends of 64 bits.
fn next_sum(sum: i64, newest: i64, oldest: i64) -> i64
    ensures { result ≡ next_sum sum newest oldest }
{
    sum.wrapping_add(newest).wrapping_sub(oldest)
}
