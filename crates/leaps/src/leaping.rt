// A stretch of ticks at once.
ghost use Rattle.std.specs.Prelude.{◌≡◌, ◌<◌, IfSome, min, length};
ghost use Rattle.std.specs.Option.{unwrap_or};
ghost use Rattle.device.specs.State.{with_gatelevels};
ghost use Rattle.leaps.specs.Leap.{Formed, leap_common, leap_of, stretch_of};
ghost use Rattle.leaps.specs.Leap.{quiet as leap_quiet};

use counters::Stretch;
use device::{Common, Crate, Status};
use lines::Levels;

// The phases move; queue and loader stay.
#[tactic(auto, unfolding(crate::specs::Leap::leap_common))]
fn leap_common(cm: &mut Common, k: u32)
    ensures { cm.new ≡ leap_common k cm.old }
{
    lines::leap_phases(&mut cm.phases, k);
}

// The gate levels are the tick's. There are as many raw counts as inputs.
fn leap_status(status: &mut Status, gatelevels: u16)
    ensures { (status.new ≡ with_gatelevels status.old gatelevels) × (length status.old.rawcounts ≡ 54) }
{
    status.gatelevels = gatelevels;
}

// k ticks at once. Of a quiet crate they are k ticks one by one.
pub fn leap(s: &mut Crate, k: u32, gatelevels: u16)
    ensures { (s.new ≡ leap_of k s.old gatelevels) × Formed s.old }
{
    let stretch = Stretch {
        control: s.common.control,
        rises: lines::rises_in(&s.common.phases, k),
        is: gates::gate_bits(&s.gates, |g| g.output),
    };
    counters::leap_counters(&mut s.counters, &stretch);
    gate_leaps::leap_gates(&mut s.gates, k);
    leap_common(&mut s.common, k);
    watchdogs::leap_watchdogs(&mut s.watchdogs, k, s.settings.timeout);
    leap_status(&mut s.status, gatelevels);
}

// Whether k ticks at these levels leave all but test signals, counts, watchdogs and timers as they are.
#[tactic(auto, unfolding(crate::specs::Leap::quiet))]
fn quiet(k: u32, s: &Crate, levels: Levels) -> bool
    ensures { result ≡ leap_quiet k s.now levels.inputs levels.gates }
{
    s.levels == levels.inputs
        && s.common.loader.is_none()
        && s.common.queue.is_empty()
        && lines::low_phases(&s.common.phases)
        && gate_leaps::steady_gates(&s.gates, k, levels.gates)
}

// At most 2^32 - 1.
fn capped(n: u64) -> u32
    ensures { result ≡ min n 4294967295 }
{
    u32::try_from(n).unwrap_or(u32::MAX)
}

// How many of the ticks left can be made at once: as many as the timers allow, if these are quiet and some.
#[tactic(auto, unfolding(crate::specs::Leap::stretch_of))]
pub fn stretch(s: &Crate, left: u64, levels: Levels) -> Option<u32>
    ensures ticks { unwrap_or result 0 ≡ stretch_of s.now left levels.inputs levels.gates }
    ensures some { IfSome result (λ k. 0 < k) }
{
    let k = gate_leaps::horizon(&s.gates, capped(left));
    (0 < k && quiet(k, s, levels)).then_some(k)
}
