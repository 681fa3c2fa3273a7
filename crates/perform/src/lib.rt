// The body's part of a call: a command carried out, its reply and the repaint. It knows no line.
#![tactic(auto)]

ghost use Rattle.perform.specs.Perform.{Replies, Performs};

use packets::{CONTENT, Packet};
use panel::Body;

// The body after a command, its reply's length and how many cells were listed.
#[derive(Clone, Copy)]
pub struct Performed {
    pub body: Body,
    pub reply: usize,
    pub listed: usize,
}

// A packet at the front of the buffer, and its length.
fn reply_with(packet: Packet, reply: &mut [u8]) -> usize
    ensures { Replies packet reply.old result reply.new }
{
    let n = packet.length.min(CONTENT);
    packets::compose(reply, packet.kind, &packet.content[..n])
}

// Carries a packet's command out; the reply is made from the body before it. Whether it is allowed is for the verdict to say.
// Kept: six parameters, since `Performs` and `perform_determined` speak of each lent buffer.
pub fn perform(
    body: Body,
    packet: Packet,
    picture: &mut [u8],
    font: &[u8],
    list: &mut [u8],
    reply: &mut [u8],
) -> Performed
    ensures { Performs body packet picture.old font.now list.old reply.old result picture.new list.new reply.new }
{
    let after = effects::effect_of(body, packet);
    let written = reply_with(replies::reply_to(body, packet), reply);
    let listed = picture::repaint::repaint(
        picture,
        list,
        body.live.shown,
        after.live.shown,
        after.sets,
        font,
    );
    Performed {
        body: after,
        reply: written,
        listed,
    }
}
