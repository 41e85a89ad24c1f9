// The selections of a counter, three fields of its input register.
ghost use Rattle.std.specs.Prelude.{◌≡◌};
ghost use Rattle.words.specs.Word.{field_of, put_of};

use crate::field::Field;

pub const UP: Field = Field { at: 0, width: 6 };

pub const DOWN: Field = Field { at: 6, width: 6 };

pub const GATE: Field = Field { at: 12, width: 4 };

#[derive(Clone, Copy)]
pub struct Selection {
    pub up: u16,
    pub down: u16,
    pub gate: u16,
}

// The selections in an input register: UP in bits 5-0, DOWN in 11-6, GATE in 15-12.
impl From<u16> for Selection {
    ghost from_gives = { λ w s. (s.up ≡ field_of w 0 6) × (s.down ≡ field_of w 6 6) × (s.gate ≡ field_of w 12 4) };

    fn from(w: u16) -> Selection {
        Selection {
            up: UP.of(w),
            down: DOWN.of(w),
            gate: GATE.of(w),
        }
    }
}

impl Selection {
    // An input register with these selections, the low bits of each.
    pub fn put(self, w: u16) -> u16
        ensures { result ≡ put_of (put_of (put_of w 12 4 self.gate) 6 6 self.down) 0 6 self.up }
    {
        let with_gate = GATE.put(w, self.gate);
        let with_down = DOWN.put(with_gate, self.down);
        UP.put(with_down, self.up)
    }
}
