// What the programs share: the calls on a reader's bytes until each piece waits for more, over what a program lends to them.
#![tactic(auto)]

ghost use Rattle.std.specs.Prelude.{◌≡◌};
ghost use Rattle.session.specs.Calls.{PowersDesk, TellsHeld, CallsOn};

use kept::{Session, with_call, with_piece};
use naupelys::naupelys_power_on;
use saidreads::told;
use sizes::{FAULTS, FONT, LIST, PICTURE, PIECE, REPLY, SAID, STATE};
use statebytes::places::COUNT;
use std::io::Read;
use tally::WAITING;

pub mod sizes;

// What a program lends to its calls, as the bytes that a C caller lends: each as the last call left it, and what that call said.
#[derive(Clone, Copy)]
pub struct Desk {
    pub state: [u8; STATE],
    pub picture: [u8; PICTURE],
    pub font: [u8; FONT],
    pub list: [u8; LIST],
    pub reply: [u8; REPLY],
    pub faults: [u8; FAULTS],
    pub said: [u8; SAID],
}

// Reads a piece where the last call waited: a read brings what has arrived and does not wait for a full buffer. A failed read
// is not taken for the end of the input.
fn supplied<R: Read>(s: Session, input: &mut R, piece: &mut [u8; PIECE]) -> Session {
    if s.call.number != WAITING {
        return s;
    }
    match input.read(piece) {
        Ok(count) => with_piece(s, count, false),
        Err(_) => with_piece(s, 0, true),
    }
}

impl Desk {
    // The panel at power-on and an empty register, with that font.
    pub fn powered_on(font: [u8; FONT]) -> Desk
        ensures { PowersDesk font result }
    {
        let mut desk = Desk {
            state: [0; STATE],
            picture: [0; PICTURE],
            font,
            list: [0; LIST],
            reply: [0; REPLY],
            faults: [0; FAULTS],
            said: [0; SAID],
        };
        naupelys_power_on(
            &mut desk.state,
            &mut desk.picture,
            &desk.font,
            &mut desk.said,
        );
        desk
    }

    // How many bytes of the line the state holds.
    #[tactic(auto, unfolding(statebytes::specs::State::panel_of, shapes::specs::Shape::value))]
    pub fn held(&self) -> u64
        ensures { TellsHeld self.now result }
    {
        u64::from(self.state[COUNT])
    }

    // The call on what is left of the piece.
    pub fn call(&mut self, s: Session, piece: &[u8]) -> Session
        ensures { CallsOn s piece.now self.old result self.new }
    {
        let before = self.held();
        let end = s.end.min(piece.len());
        let at = s.at.min(end);
        linebytes::line(
            &mut self.state,
            &piece[at..end],
            &mut self.picture,
            &self.font,
            &mut self.list,
            &mut self.reply,
            &mut self.faults,
            &mut self.said,
        );
        with_call(s, at, before, told(&self.said))
    }

    // The next call: on what is left of the piece, or, where the last one waited, on a piece that is read first. A packet's call
    // is followed by one that goes on behind it, so that a piece is called on until it waits.
    pub fn step<R: Read>(&mut self, s: Session, input: &mut R, piece: &mut [u8; PIECE]) -> Session {
        let t = supplied(s, input, piece);
        if t.over { t } else { self.call(t, piece) }
    }
}
