// The words that patch a counter, for users who write registers: of its input register, and of a group register with its group.
#![tactic(auto)]

ghost use Rattle.std.specs.Prelude.{◌≡◌};
ghost use Rattle.patching.specs.Patching.{group_answer, input_answer};

use words::Selection;

// Values of a selection: six bits.
const SELECTION_VALUES: u16 = 64;

// Values of a gate's field: four bits.
const GATE_VALUES: u16 = 16;

const COUNTERS: u16 = 128;

const GROUPS: u16 = 16;

// The word of an input register with these selections and this gate. None where one of them is too large for its field.
#[tactic(auto, using(crate::proofs::Made::selected), unfolding(crate::specs::Patching::input_answer))]
pub fn input_word(up: u16, down: u16, gate: u16) -> Option<u16>
    ensures { result ≡ input_answer up down gate }
{
    if up < SELECTION_VALUES && down < SELECTION_VALUES && gate < GATE_VALUES {
        Some(Selection { up, down, gate }.put(0))
    } else {
        None
    }
}

// The word of a counter's group register with this group for the counter; the other three counters' groups are those of `word`.
// None where there is no such counter or group.
#[tactic(auto, unfolding(crate::specs::Patching::group_answer))]
pub fn group_word(word: u16, counter: u16, group: u16) -> Option<u16>
    ensures { result ≡ group_answer word counter group }
{
    if counter < COUNTERS && group < GROUPS {
        Some(words::put_nibble(word, usize::from(counter), group))
    } else {
        None
    }
}
