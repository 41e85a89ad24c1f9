// Document 01's and 02's table of causes of refusal.
#![tactic(auto)]

ghost use Rattle.std.specs.Prelude.{◌≡◌};
ghost use Rattle.causes.specs.Causes.{cause_number, number_of};

// The causes, each with its number of the table.
#[derive(Clone, Copy, Debug, PartialEq, Eq)]
pub enum Cause {
    Memory = 1,
    Address = 2,
    ReadOnly = 3,
    Dataset = 4,
    Full = 5,
    Level = 6,
    UnknownTag = 7,
    WrongLength = 8,
    Cut = 9,
    NoRepeat = 10,
    Length = 11,
    NotFrames = 12,
    NoRoom = 13,
    BadSum = 14,
}

impl From<Cause> for u16 {
    ghost from_gives = { λ cause number. number ≡ cause_number cause };

    fn from(cause: Cause) -> u16 {
        cause as u16
    }
}

// The number of an answer, 0 for an accepted call, for programs that hand answers out by the table of causes. Nothing here calls it; what calls
// return in such numbers is stated in `demands` by its contract.
pub fn number<T: Copy>(answer: Result<T, Cause>) -> u16
    ensures { result ≡ number_of answer }
{
    match answer {
        Ok(_) => 0,
        Err(cause) => cause.into(),
    }
}
