// The frames of a capture, and the longest repeats of equal neighbours.
ghost use Rattle.std.specs.Prelude.{◌≡◌, ◌≤◌, ◌-◌, length, take};
ghost use Rattle.std.specs.List.{prefix_len};
ghost use Rattle.captures.specs.Captures.{frame_at, is_bad, same_frame};
ghost use Rattle.captures.specs.Nine.{frame_of};
ghost use Rattle.captures.specs.Written.{largest_repeat};

use lines::Levels;

// Seven bytes of inputs, two of gates.
pub const FRAME_BYTES: usize = 9;

// A frame as its nine bytes stand: the first eight as one number, and the last. So frames are compared by two numbers; as arrays, byte by
// byte, conversion has half the speed.
#[derive(Clone, Copy, PartialEq, Eq)]
pub struct Nine {
    pub head: u64,
    pub last: u8,
}

impl From<&[u8; FRAME_BYTES]> for Nine {
    ghost from_gives = { λ bytes x. frame_of x ≡ frame_at bytes.now 0 };

    fn from(bytes: &[u8; FRAME_BYTES]) -> Nine {
        let [b0, b1, b2, b3, b4, b5, b6, b7, last] = *bytes;
        Nine {
            head: u64::from_be_bytes([b0, b1, b2, b3, b4, b5, b6, b7]),
            last,
        }
    }
}

impl Nine {
    // The levels of the inputs, seven bytes, and of the gates, two.
    #[tactic(auto, unfolding(crate::specs::Nine::frame_of))]
    fn levels(self) -> Levels
        ensures { result ≡ frame_of self }
    {
        let inputs = self.head / 256;
        let gates = (self.head % 256 * 256 + u64::from(self.last)) as u16;
        Levels { inputs, gates }
    }

    // A level on a line that does not exist.
    pub fn is_bad(self) -> bool
        ensures { result ≡ is_bad (frame_of self) }
    {
        self.levels().are_bad()
    }

    // Whether it is the frame of these bytes.
    #[tactic(auto, using(crate::proofs::Nines::same_nine), unfolding(crate::specs::Nine::frame_of))]
    fn stands_in(self, bytes: &[u8; FRAME_BYTES]) -> bool
        ensures { result ≡ same_frame (frame_of self) (frame_at bytes.now 0) }
    {
        self == Nine::from(bytes)
    }

    // How many of the frames behind it go on with its repeat, as far as a repeat goes.
    fn joined(self, behind: &[[u8; FRAME_BYTES]]) -> usize
        ensures joined { result ≡ prefix_len (λ array. same_frame (frame_of self) (frame_at array 0)) (take (largest_repeat - 1) behind.now) }
        ensures there { result ≤ length behind.now }
        ensures few { result ≤ largest_repeat - 1 }
    {
        let reach = behind.len().min(usize::from(u16::MAX - 1));
        behind[..reach]
            .iter()
            .take_while(|bytes| self.stands_in(bytes))
            .count()
    }
}

// A frame, and how often it stands.
#[derive(Clone, Copy)]
pub struct Repeat {
    pub times: u16,
    pub frame: Nine,
}

// The repeats that frames become, in order.
#[derive(Drop)]
pub struct Repeats<'a> {
    frames: &'a [[u8; FRAME_BYTES]],
}

impl<'a> Repeats<'a> {
    pub fn of(frames: &'a [[u8; FRAME_BYTES]]) -> Repeats<'a>
        ensures { result.frames.now ≡ frames.now }
    {
        Repeats { frames }
    }
}

impl Iterator for Repeats<'_> {
    ghost use Rattle.std.specs.Iterator.{YieldsFirstBy, item_count};
    ghost use Rattle.captures.specs.Nine.{repeat_of, records_left};

    type Item = Repeat;

    ghost next_gives = { YieldsFirstBy repeat_of records_left };

    ghost remaining = { item_count records_left };

    fn next(&mut self) -> Option<Repeat> {
        let (first, behind) = self.frames.split_first()?;
        let frame = Nine::from(first);
        let more = frame.joined(behind);
        self.frames = behind.split_at(more).1;
        Some(Repeat {
            times: 1 + more as u16,
            frame,
        })
    }
}
