// Cases of the whole panel, over the bytes that a C caller lends.
use crate::text::decimal;
use crate::words::Word;
use naupelys::{naupelys_key, naupelys_line, naupelys_pin, naupelys_power_on};
use saidreads::told;
use session::{Desk, sizes};
use std::io::Stdout;

// A case begins: the programs' font, the panel at power-on and an empty register. The picture is drawn over other dots.
// Kept: a desk is put together here once more, since the cases' picture begins with other dots.
pub fn begin() -> Desk {
    let mut desk = Desk {
        state: [0; sizes::STATE],
        picture: [170; sizes::PICTURE],
        font: font::program_font(),
        list: [0; sizes::LIST],
        reply: [0; sizes::REPLY],
        faults: [0; sizes::FAULTS],
        said: [0; sizes::SAID],
    };
    naupelys_power_on(
        &mut desk.state,
        &mut desk.picture,
        &desk.font,
        &mut desk.said,
    );
    desk
}

// A line call over bytes.
fn line(desk: &mut Desk, piece: &[u8]) {
    naupelys_line(
        &mut desk.state,
        piece,
        &mut desk.picture,
        &desk.font,
        &mut desk.list,
        &mut desk.reply,
        &mut desk.faults,
        &mut desk.said,
    );
}

// Calls, with a line for each, until all is taken and the answer is waiting. A line of the script spells at most 256 bytes, so
// that by framing's `four_bytes_a_packet`, with at most 25 bytes held before, there are no more calls than the loop allows; no
// call takes more than its piece.
fn calls<F: Fn(&mut Desk, &[u8])>(stdout: Stdout, desk: &mut Desk, bytes: &[u8], call: F)
    requires { F.IsAlwaysCallable call }
{
    let mut rest = bytes;
    for _ in 0..72usize {
        call(desk, rest);
        crate::show::line(stdout, desk);
        let c = told(&desk.said);
        rest = &rest[rest.len().min(c.taken as usize)..];
        if (c.number < 2) | (4 < c.number) {
            return;
        }
    }
}

// A key pressed, or released.
fn key(stdout: Stdout, line: &[u8], down: bool, desk: &mut Desk) {
    let key = decimal(line, 0, 255) as u32;
    naupelys_key(&mut desk.state, key, down, &mut desk.reply, &mut desk.said);
    crate::show::key(stdout, desk);
}

// A pin that goes high, or low.
fn pin(stdout: Stdout, line: &[u8], high: bool, desk: &mut Desk) {
    let pin = decimal(line, 0, 255) as u32;
    naupelys_pin(&mut desk.state, pin, high, &mut desk.said);
    crate::show::call(stdout, &desk.said);
}

// The font that is lent from now on: nine bytes are a code and its eight rows.
fn rows(desk: &mut Desk, bytes: &[u8]) {
    let mut eight = [0u8; 8];
    shapes::fill(&mut eight, bytes, 1);
    lists::paste(&mut desk.font, 8 * usize::from(lists::at(bytes, 0)), &eight);
}

// A heading stands as it is, and a case begins.
fn heading(stdout: Stdout, line: &[u8]) -> Desk {
    crate::text::word(stdout, line);
    crate::text::end(stdout);
    begin()
}

// A line of the script that spells these bytes.
pub fn run(stdout: Stdout, name: Word, script: &[u8], bytes: &[u8], desk: &mut Desk) {
    match name {
        Word::Heading => *desk = heading(stdout, script),
        Word::Line => calls(stdout, desk, bytes, line),
        Word::Value => calls(stdout, desk, bytes, crate::value::line),
        Word::Font => rows(desk, bytes),
        Word::Count => crate::wrong::count(script, &mut desk.faults),
        Word::Press => key(stdout, script, true, desk),
        Word::Release => key(stdout, script, false, desk),
        Word::High => pin(stdout, script, true, desk),
        Word::Low => pin(stdout, script, false, desk),
        Word::Lend => crate::wrong::lend(stdout, script, &mut desk.state),
        Word::Sizes => crate::wrong::sizes(stdout, script, &mut desk.state),
        Word::Set => crate::wrong::set(script, &mut desk.state),
        Word::Unfiled => crate::wrong::unfiled(script, &mut desk.state),
        Word::Mark => crate::wrong::mark(script, &mut desk.state),
        _ => {}
    }
}
