// What a call says, written as 16 bytes.
#![tactic(auto)]

ghost use Rattle.saidbytes.specs.Says.{Says, SaysRefused};

use answers::{Answer, Check, NO_COUNTS};
use framing::Counts;

// How many bytes it takes.
pub const SAID: usize = 16;

// The numbers of the answer, the counts, the reply's length and how many cells are listed; returns the answer's number.
#[tactic(auto, unfolding(crate::specs::Says::said_bytes, shapes::specs::Shape::bytes))]
pub fn write(said: &mut [u8; SAID], answer: Answer, c: Counts, reply: usize, listed: usize) -> u8
    ensures { Says answer c reply listed result said.new }
{
    let n = answers::told(answer);
    let taken = c.taken.to_le_bytes();
    let dropped = c.dropped.to_le_bytes();
    let checked = c.checked.to_le_bytes();
    *said = [
        n.number,
        n.command,
        n.reason,
        n.place,
        taken[0],
        taken[1],
        dropped[0],
        dropped[1],
        checked[0],
        checked[1],
        checked[2],
        checked[3],
        reply.to_le_bytes()[0],
        listed.to_le_bytes()[0],
        0,
        0,
    ];
    n.number
}

// A call that is refused by number: nothing is changed, and all counts are 0.
pub fn refused(said: &mut [u8; SAID], check: Check) -> u8
    ensures { SaysRefused check result said.new }
{
    write(said, Answer::CallRefused(check), NO_COUNTS, 0, 0)
}
