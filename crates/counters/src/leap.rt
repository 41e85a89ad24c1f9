// Counters over so many ticks at once, with their gates' outputs unchanged.
ghost use Rattle.std.specs.Prelude.{◌≡◌, ◌^◌, ◌<◌, get_or};
ghost use Rattle.std.specs.Int.Signed.{mag};
ghost use Rattle.counters.specs.Leap.{Ranged, count_after, counter_after, leap_counters};

use crate::counter::{COUNTERS, Counter};

// What a stretch of ticks brings to all counters: register 0x0801, the rises of each selection value, and the gate outputs.
#[derive(Drop)]
pub struct Stretch {
    pub control: u16,
    pub rises: [u32; 64],
    pub is: u16,
}

// The count after so many rises of UP and of DOWN: a word of 32 bits that wraps.
fn count_after(z: i32, ups: u32, downs: u32) -> i32
    ensures { result ≡ count_after z ups downs }
{
    z.cast_unsigned()
        .wrapping_add(ups)
        .wrapping_sub(downs)
        .cast_signed()
}

// A counter k ticks on: held at 0 by RESET; else with its gate open it counts. Its count was one of 32 bits.
#[tactic(auto, unfolding(crate::specs::Leap::counter_after, crate::specs::Leap::counter_leap))]
fn counter_after(mut c: Counter, stretch: &Stretch) -> Counter
    ensures { (result ≡ counter_after stretch.now.control (λ u. get_or stretch.now.rises u 0) stretch.now.is c) × (mag c.count < 2 ^ 31) }
{
    if words::bit(stretch.control, 0) {
        return c.clear();
    }
    let selection = words::Selection::from(c.input);
    if words::bit(stretch.is, usize::from(selection.gate)) {
        let ups = stretch.rises[usize::from(selection.up)];
        let downs = stretch.rises[usize::from(selection.down)];
        c.count = count_after(c.count, ups, downs);
    }
    c
}

// All counters. Their counts were of 32 bits.
#[tactic(auto, unfolding(crate::specs::Leap::leap_counters))]
pub fn leap_counters(counters: &mut [Counter; COUNTERS], stretch: &Stretch)
    ensures { (counters.new ≡ leap_counters stretch.now.control (λ u. get_or stretch.now.rises u 0) stretch.now.is counters.old) × Ranged counters.old 128 }
{
    lists::step_each(counters, |_, c| counter_after(c, stretch));
}
