// What a call says, read from its 16 bytes.
#![tactic(auto)]

ghost use Rattle.saidreads.specs.Told.{ReadsSaid};

use saidbytes::SAID;
use tally::CallTold;

#[tactic(auto, unfolding(crate::specs::Told::call_of, shapes::specs::Shape::value))]
pub fn told(said: &[u8; SAID]) -> CallTold
    ensures { ReadsSaid said.now result }
{
    CallTold {
        number: said[0],
        command: said[1],
        reason: said[2],
        place: said[3],
        taken: u64::from(u16::from_le_bytes([said[4], said[5]])),
        dropped: u64::from(u16::from_le_bytes([said[6], said[7]])),
        checked: u64::from(u32::from_le_bytes([said[8], said[9], said[10], said[11]])),
        reply: usize::from(said[12]),
        listed: usize::from(said[13]),
    }
}
