// Composing a command's packet for a host. What the panel would refuse is refused here, by the panel's own verdict.
#![tactic(auto)]

ghost use Rattle.std.specs.Prelude.{◌≡◌};
ghost use Rattle.verdict.specs.Verdict.{verdict_of};
ghost use Rattle.composer.specs.Compose.{ComposesFor};

use packets::REPLY;
use verdict::{Objection, Reason};

// A packet that is written: its command and its length.
#[derive(Clone, Copy, PartialEq, Eq)]
pub struct Written {
    pub command: u8,
    pub size: usize,
}

// Why none is written: the buffer is not 26 bytes; or the panel would refuse the packet, with its command, reason and place.
// Kept: the three parts of a refusal stand by themselves, as `refuses_as_the_panel` speaks of them.
#[derive(Clone, Copy, PartialEq, Eq)]
pub enum ComposeError {
    BufferSize,
    Refused(u8, Reason, u8),
}

// The panel's verdict on a code of any size: one that is no byte is unknown, as any above 63 is.
#[tactic(auto, using(crate::proofs::Verdicts::above_63))]
fn verdict_for(code: u32, content: &[u8]) -> Result<(), Objection>
    ensures { result ≡ verdict_of code content.now }
{
    let Ok(code) = u8::try_from(code) else {
        return Err(Objection {
            reason: Reason::UnknownCommand,
            place: 0,
        });
    };
    verdict::verdict_on(code, content)
}

// The packet of a command's code and data bytes at the front of a lent buffer of 26, or why there is none.
#[tactic(auto, using(lists::proofs::Laws::when_true, lists::proofs::Laws::when_false), unfolding(crate::specs::Compose::composing, crate::specs::Compose::outcome_by, crate::specs::Compose::packet_by))]
pub fn compose(packet: &mut [u8], code: u32, content: &[u8]) -> Result<Written, ComposeError>
    ensures { ComposesFor packet.old code content.now result packet.new }
{
    if packet.len() != REPLY {
        return Err(ComposeError::BufferSize);
    }
    let command = (code % 64) as u8;
    verdict_for(code, content).map_err(|o| ComposeError::Refused(command, o.reason, o.place))?;
    let size = packets::compose(packet, command, content);
    Ok(Written { command, size })
}
