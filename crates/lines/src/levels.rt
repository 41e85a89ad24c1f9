// The lines, and their levels in a tick.
ghost use Rattle.std.specs.Prelude.{◌≡◌};
ghost use Rattle.lines.specs.Lines.{bad_levels};

// The pulse inputs and the gate inputs.
pub const INPUTS: usize = 54;

pub const GATES: usize = 12;

// Those of the inputs, input 0 in bit 0, and of the gates.
#[derive(Clone, Copy)]
pub struct Levels {
    pub inputs: u64,
    pub gates: u16,
}

impl Levels {
    // A level on an input or a gate that does not exist.
    #[tactic(auto, unfolding(crate::specs::Lines::bad_levels))]
    pub fn are_bad(self) -> bool
        ensures { result ≡ bad_levels self.inputs self.gates }
    {
        1 << INPUTS <= self.inputs || 1 << GATES <= self.gates
    }
}
