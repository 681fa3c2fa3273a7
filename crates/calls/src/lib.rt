// A piece of the line for the whole panel, by value, with the filing of what is refused.
#![tactic(auto)]

ghost use Rattle.std.specs.Prelude.{◌≡◌, length};
ghost use Rattle.linecall.specs.Line.{said_with, lent, LineSays, LineCall};
ghost use Rattle.calls.specs.Line.{Follows};

use answers::{Answer, Said};
use filing::Record;
use listen::{Heard, Sizes};
use panel::{Body, Panel};
use perform::Performed;
use register::run::file;

// What was heard, with what its command did.
fn together(h: Heard, d: Performed) -> Said
    ensures { result ≡ said_with h d }
{
    Said {
        panel: Panel {
            line: h.line,
            body: d.body,
        },
        answer: h.answer,
        counts: h.counts,
        reply: d.reply,
        listed: d.listed,
    }
}

// The body's part of a call: a done command is performed, and else the body and the buffers stay as they are.
// Kept: the lent buffers are parameters, here and in `hear`: of a struct that borrows them, no proof is made where a field is lent
// and the struct is then moved on.
fn follow(
    body: Body,
    h: Heard,
    picture: &mut [u8],
    font: &[u8],
    list: &mut [u8],
    reply: &mut [u8],
) -> Performed
    ensures { Follows body h picture.old font.now list.old reply.old result picture.new list.new reply.new }
{
    if let Answer::Done(_) = h.answer {
        return perform::perform(body, h.packet, picture, font, list, reply);
    }
    Performed {
        body,
        reply: h.reply,
        listed: 0,
    }
}

// All of the call but the filing.
fn hear(
    p: Panel,
    piece: &[u8],
    picture: &mut [u8],
    font: &[u8],
    list: &mut [u8],
    reply: &mut [u8],
    records: usize,
) -> Said
    ensures { LineSays p (lent piece.now picture.old font.now list.old reply.old records) result picture.new list.new reply.new }
{
    let in_ranges = ranges::in_ranges(p);
    let sizes = Sizes {
        picture: picture.len(),
        font: font.len(),
        list: list.len(),
        records,
    };
    match listen::checked(in_ranges, piece.len(), sizes, reply.len()) {
        Err(check) => answers::nothing_taken(p, Answer::CallRefused(check), 0),
        Ok(()) => {
            let h = listen::hear(p.line, piece, reply);
            let d = follow(p.body, h, picture, font, list, reply);
            together(h, d)
        }
    }
}

// A piece of the line. What the answer refuses is filed in the register, or in the panel's unfiled number.
// Kept: seven parameters, since this is the public function of which `LineCall` and `line_determined` speak.
pub fn line(
    p: Panel,
    piece: &[u8],
    picture: &mut [u8],
    font: &[u8],
    list: &mut [u8],
    reply: &mut [u8],
    register: &mut [Record],
) -> Said
    ensures { LineCall p (lent piece.now picture.old font.now list.old reply.old (length register.old)) register.old result picture.new list.new reply.new register.new }
{
    let mut said = hear(p, piece, picture, font, list, reply, register.len());
    let refusal = answers::to_file(said.answer);
    said.panel.line.unfiled = file(register, refusal, said.panel.line.unfiled);
    said
}
