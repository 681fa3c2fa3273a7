// Calls with buffers of other sizes, states that no command sets, and counts that no case could reach by refusals.
ghost use Rattle.std.specs.Prelude.{◌≤◌};

use crate::show::ROOM;
use crate::text::decimal;
use registerbytes::RECORD;
use session::sizes::{FAULTS, SAID, STATE};
use statebytes::places::{BOOT, CONTRAST, COUNT, DOWN, LIVE, SETS, STYLE, UNFILED};
use std::io::Stdout;

// One line call on a piece of zeros, which hold no packet; the line tells, in order, the sizes of the piece, the picture, the
// font, the list, the reply buffer and the register.
pub fn sizes(stdout: Stdout, line: &[u8], state: &mut [u8; STATE]) {
    let piece = [0u8; 4097];
    let mut screen = [0u8; 641];
    let font = [0u8; 2049];
    let mut list = [0u8; 81];
    let mut reply = [0u8; 27];
    let mut faults = [0u8; 455];
    let mut said = [0u8; SAID];
    let a = decimal(line, 0, 4097);
    let b = decimal(line, 1, 641);
    let c = decimal(line, 2, 2049);
    let d = decimal(line, 3, 81);
    let e = decimal(line, 4, 27);
    let f = decimal(line, 5, 65) * RECORD;
    naupelys::naupelys_line(
        state,
        &piece[..a],
        &mut screen[..b],
        &font[..c],
        &mut list[..d],
        &mut reply[..e],
        &mut faults[..f],
        &mut said,
    );
    crate::show::call(stdout, &said);
}

fn drawn(stdout: Stdout, screen: &[u8; 641]) {
    crate::text::word(stdout, b"picture");
    crate::text::checksum(stdout, screen);
    crate::text::word(stdout, b"state");
}

// Power-on with a picture and a font of the sizes that the line tells; the picture's checksum and the state show that a
// refused one draws nothing and still returns the power-on state.
pub fn power(stdout: Stdout, line: &[u8]) {
    let b = decimal(line, 0, 641);
    let c = decimal(line, 1, 2049);
    let mut screen = [170u8; 641];
    let font = [0u8; 2049];
    let mut state = [0u8; STATE];
    let mut said = [0u8; SAID];
    naupelys::naupelys_power_on(&mut state, &mut screen[..b], &font[..c], &mut said);
    crate::show::call(stdout, &said);
    drawn(stdout, &screen);
    crate::show::state(stdout, &state);
}

// A key pressed with a reply buffer of the size that stands behind the key.
pub fn lend(stdout: Stdout, line: &[u8], state: &mut [u8; STATE]) {
    let mut reply = [0u8; 27];
    let mut said = [0u8; SAID];
    let size = decimal(line, 1, 27);
    naupelys::naupelys_key(
        state,
        decimal(line, 0, 255) as u32,
        true,
        &mut reply[..size],
        &mut said,
    );
    crate::show::call(stdout, &said);
}

// The cells of a glyph in a list of the size that stands behind the glyph. What is in the list's room before, 170, shows which of
// its bytes are written.
pub fn cells(stdout: Stdout, line: &[u8], state: &[u8; STATE]) {
    let mut room = [170u8; ROOM];
    let mut said = [0u8; SAID];
    let glyph = decimal(line, 0, 4294967295) as u32;
    let size = decimal(line, 1, ROOM);
    naupelys::naupelys_symbol_cells(state, glyph, &mut room[..size], &mut said);
    crate::show::cells(stdout, &said, &room);
}

// One value of the state set without a command, by the first letter behind "set": the live settings' contrast, the boot
// state's style, the keys down or how many bytes are held.
pub fn set(line: &[u8], state: &mut [u8; STATE]) {
    let place = match lists::at(line, 4) {
        b'c' => LIVE + CONTRAST,
        b'b' => BOOT + STYLE,
        b'd' => DOWN,
        _ => COUNT,
    };
    shapes::lay_byte(state, place, decimal(line, 0, 255) as u8);
}

// A cell's byte in the sets: the cell and the byte.
pub fn mark(line: &[u8], state: &mut [u8; STATE]) {
    let place = SETS + decimal(line, 0, 79);
    shapes::lay_byte(state, place, decimal(line, 1, 255) as u8);
}

// The unfiled number set.
pub fn unfiled(line: &[u8], state: &mut [u8; STATE]) {
    shapes::lay_word(state, UNFILED, decimal(line, 0, 4294967295) as u32);
}

// A record's count set: its number and the count, which stands behind command, reason and place.
pub fn count(line: &[u8], faults: &mut [u8; FAULTS]) {
    let place = decimal(line, 0, 63) * RECORD + 3;
    shapes::lay_word(faults, place, decimal(line, 1, 4294967295) as u32);
}
