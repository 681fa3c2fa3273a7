// The line call over lent bytes: the body is read only where a command is performed, the register only where a packet is refused.
#![tactic(auto)]

ghost use Rattle.std.specs.Prelude.{◌≡◌, length};
ghost use Rattle.linecall.specs.Line.{lent};
ghost use Rattle.linebytes.specs.Line.{records_in, FilesBytes, TurnsDown, CarriesOut, LineBytes};

use answers::Answer;
use filing::RECORDS;
use listen::{Heard, Sizes};
use panel::Line;
use registerbytes::REGISTER;
use saidbytes::SAID;

// How many records so many bytes are; 0 where they are no register.
#[tactic(auto, using(lists::proofs::Laws::when_true, lists::proofs::Laws::when_false), unfolding(crate::specs::Line::records_in))]
fn records_in(size: usize) -> usize
    ensures { result ≡ records_in size }
{
    if size == REGISTER { RECORDS } else { 0 }
}

// Files the answer's refusal, if it is one, and returns the unfiled number.
fn file(faults: &mut [u8], answer: Answer, unfiled: u32) -> u32
    ensures { FilesBytes answer unfiled faults.old result faults.new }
{
    match answers::to_file(answer) {
        None => unfiled,
        Some(refusal) => {
            let records = registerbytes::read(faults);
            let r = register::run::file_in(records, Some(refusal), unfiled);
            registerbytes::write(faults, r.register);
            r.unfiled
        }
    }
}

// The end of a line call that performs nothing: of the state only the line's part changes.
fn turned_down(state: &mut [u8], h: Heard, faults: &mut [u8], said: &mut [u8; SAID]) -> u8
    ensures { TurnsDown state.old h faults.old result state.new faults.new said.new }
{
    let unfiled = file(faults, h.answer, h.line.unfiled);
    statebytes::line::write_line(state, Line { unfiled, ..h.line });
    saidbytes::write(said, h.answer, h.counts, h.reply, 0)
}

// The end of a line call whose command is performed.
// Kept: the lent buffers are parameters, as in `perform::perform`, which takes them on: a struct that borrows them would be put
// together here only to be taken apart.
fn carried_out(
    state: &mut [u8],
    h: Heard,
    picture: &mut [u8],
    font: &[u8],
    list: &mut [u8],
    reply: &mut [u8],
    said: &mut [u8; SAID],
) -> u8
    ensures { CarriesOut state.old h picture.old font.now list.old reply.old result state.new picture.new list.new reply.new said.new }
{
    let d = perform::perform(
        statereads::read_body(state),
        h.packet,
        picture,
        font,
        list,
        reply,
    );
    statewrites::write(state, h.line, d.body);
    saidbytes::write(said, h.answer, h.counts, d.reply, d.listed)
}

// A piece of the line. A call that is refused by number ends before the line's part is read.
// Kept: eight parameters, since `LineBytes` and `line_determined` say this of naupelys_line's own buffers.
pub fn line(
    state: &mut [u8],
    piece: &[u8],
    picture: &mut [u8],
    font: &[u8],
    list: &mut [u8],
    reply: &mut [u8],
    faults: &mut [u8],
    said: &mut [u8; SAID],
) -> u8
    ensures { LineBytes state.old (lent piece.now picture.old font.now list.old reply.old (records_in (length faults.old))) faults.old result state.new picture.new list.new reply.new faults.new said.new }
{
    let in_ranges = statereads::in_ranges(state);
    let sizes = Sizes {
        picture: picture.len(),
        font: font.len(),
        list: list.len(),
        records: records_in(faults.len()),
    };
    match listen::checked(in_ranges, piece.len(), sizes, reply.len()) {
        Err(check) => saidbytes::refused(said, check),
        Ok(()) => {
            let h = listen::hear(statebytes::line::read_line(state), piece, reply);
            if let Answer::Done(_) = h.answer {
                return carried_out(state, h, picture, font, list, reply, said);
            }
            turned_down(state, h, faults, said)
        }
    }
}
