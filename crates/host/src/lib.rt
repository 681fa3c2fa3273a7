// Composing for a C caller: the general call of include/naupelys_host.h over lent bytes, and what its named calls hand on to.
#![tactic(auto)]

ghost use Rattle.host.specs.Calls.{TellsComposing, ComposeBytes, CommandBytes};

use answers::{Answer, NO_COUNTS};
use commands::Command;
use composer::{ComposeError, Written};
use saidbytes::SAID;

// A composer's answer written as what the call says; its number.
// Kept: 21 is C's number (`compose_numbers`).
#[tactic(auto, unfolding(crate::specs::Calls::compose_numbers, crate::specs::Calls::packet_length, saidbytes::specs::Says::said_bytes, shapes::specs::Shape::bytes))]
fn told(said: &mut [u8; SAID], r: Result<Written, ComposeError>) -> u8
    ensures { TellsComposing r result said.new }
{
    match r {
        Ok(w) => saidbytes::write(said, Answer::Done(w.command), NO_COUNTS, w.size, 0),
        Err(ComposeError::Refused(command, reason, place)) => {
            saidbytes::write(
                said,
                Answer::Refused(command, reason, place),
                NO_COUNTS,
                0,
                0,
            )
        }
        Err(ComposeError::BufferSize) => {
            *said = [0; SAID];
            said[0] = 21;
            21
        }
    }
}

// The packet of a code and data bytes.
pub fn naupelys_compose(code: u32, data: &[u8], packet: &mut [u8], said: &mut [u8; SAID]) -> u8
    ensures { ComposeBytes code «data».now packet.old result packet.new said.new }
{
    let r = composer::compose(packet, code, data);
    told(said, r)
}

// The packet of a command, with the bytes that follow its values.
pub fn command(c: Command, bytes: &[u8], packet: &mut [u8], said: &mut [u8; SAID]) -> u8
    ensures { CommandBytes c bytes.now packet.old result packet.new said.new }
{
    let r = commands::compose(packet, c, bytes);
    told(said, r)
}
