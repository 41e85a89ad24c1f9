// Event tags: what they note, and the commands.
ghost use Rattle.std.specs.Prelude.{◌≡◌};
ghost use Rattle.tagging.specs.Command.{command_in};
ghost use Rattle.tagging.specs.Tag.{code_of, key_of, events_on, commanded, command_answer, tag_of, tag_answer};

use causes::Cause;
use device::{Common, Crate};
use gates::Gate;
use loader::Request;
use words::Field;

// The command's place in a tag's code.
const COMMAND: Field = Field { at: 12, width: 4 };

// What a tag asks for: a reload, a pulse on the gates whose bits are set, or that all counts are cleared.
#[derive(Clone, Copy)]
enum Command {
    Reload(Request),
    Prepare { gates: u16 },
    Recover { gates: u16 },
    Clear,
}

// An event tag: the key in its high 16 bits, the code in its low ones.
#[derive(Clone, Copy)]
struct EventTag {
    key: u16,
    code: u16,
}

impl From<u32> for EventTag {
    ghost from_gives = { λ t tag. (tag.key ≡ key_of t) × (tag.code ≡ code_of t) };

    fn from(t: u32) -> EventTag {
        let [code, key] = words::halves(t);
        EventTag { key, code }
    }
}

impl EventTag {
    // The command of the code, none at 0 and from 5 on.
    fn command(self) -> Option<Command>
        ensures { result ≡ command_in self.code }
    {
        let code = self.code;
        match COMMAND.of(code) {
            1 => Some(Command::Reload(Request::from(code))),
            2 => Some(Command::Prepare { gates: code }),
            3 => Some(Command::Recover { gates: code }),
            4 => Some(Command::Clear),
            _ => None,
        }
    }
}

// Whether events are on.
fn events_on(cm: &Common) -> bool
    ensures { result ≡ events_on cm.now }
{
    words::bit(cm.enable, 0)
}

// A tag's command runs; a reload may be refused.
#[tactic(auto, unfolding(crate::specs::Tag::commanded, crate::specs::Tag::tag_request, writing::specs::Write::requested))]
fn run_command(s: &mut Crate, tag: EventTag) -> Result<(), Cause>
    ensures { (result ≡ command_answer s.old.common tag.code) × (s.new ≡ commanded s.old tag.code) }
{
    match tag.command() {
        Some(Command::Reload(request)) => return writing::request(&mut s.common, request),
        Some(Command::Prepare { gates }) => {
            gates::change_gates(&mut s.gates, gates, Gate::pulse_prepare);
        }
        Some(Command::Recover { gates }) => {
            gates::change_gates(&mut s.gates, gates, Gate::pulse_recover);
        }
        Some(Command::Clear) => counters::clear_counters(&mut s.counters),
        None => {}
    }
    Ok(())
}

// What a tag answers and does: with events off nothing; 0x0900 and 0x0901 take it, and with the right key 0x0902 its code, and its command runs.
#[tactic(auto, using(crate::proofs::Codes::commanded_code, crate::proofs::Codes::answer_code), unfolding(crate::specs::Tag::tag_of, crate::specs::Tag::tag_answer))]
pub fn tag_crate(s: &mut Crate, t: u32) -> Result<(), Cause>
    ensures { (result ≡ tag_answer s.old.common t) × (s.new ≡ tag_of s.old t) }
{
    if !events_on(&s.common) {
        return Ok(());
    }
    let tag = EventTag::from(t);
    s.status.events.low = tag.code;
    s.status.events.high = tag.key;
    if tag.key != s.common.key {
        return Ok(());
    }
    s.status.events.code = tag.code;
    run_command(s, tag)
}
