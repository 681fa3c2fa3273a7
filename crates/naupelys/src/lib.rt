// The panel for a C caller: the five calls of include/naupelys.h over lent bytes.
#![tactic(auto)]

ghost use Rattle.std.specs.Prelude.{◌≡◌, length};
ghost use Rattle.answers.specs.declared.Check.TheVariants.{StateRange};
ghost use Rattle.saidbytes.specs.Says.{SaysRefused};
ghost use Rattle.linecall.specs.Line.{lent};
ghost use Rattle.linebytes.specs.Line.{records_in, LineBytes};
ghost use Rattle.naupelys.specs.Calls.{panel_in, Told, EndsCall, PowerOnBytes, KeyBytes, PinBytes, CellsBytes};

use answers::{Check, Said};
use panel::Panel;
use saidbytes::SAID;
use statebytes::places::SIZE;

// The answer and the counts written as what the call says; the answer's number.
fn told(said: &mut [u8; SAID], s: Said) -> u8
    ensures { Told s result said.new }
{
    saidbytes::write(said, s.answer, s.counts, s.reply, s.listed)
}

// What a call says of bytes that are no state.
fn no_state(said: &mut [u8; SAID]) -> u8
    ensures { SaysRefused StateRange result said.new }
{
    saidbytes::refused(said, Check::StateRange)
}

// The panel that the bytes are, if they are a state.
fn panel_in(state: &[u8]) -> Option<Panel>
    ensures { result ≡ panel_in state.now }
{
    if state.len() != SIZE {
        return None;
    }
    Some(Panel {
        line: statebytes::line::read_line(state),
        body: statereads::read_body(state),
    })
}

// The end of a call on a state: the state after it, unless the call was refused by number.
fn ended(state: &mut [u8], s: Said, said: &mut [u8; SAID]) -> u8
    ensures { EndsCall state.old s result state.new said.new }
{
    let number = told(said, s);
    if number < 10 {
        statewrites::write(state, s.panel.line, s.panel.body);
    }
    number
}

// The panel at power-on. It needs no state that can be read, only the room for one.
// Kept: four parameters, which are the C interface's naupelys_power_on.
pub fn naupelys_power_on(
    state: &mut [u8],
    picture: &mut [u8],
    font: &[u8],
    said: &mut [u8; SAID],
) -> u8
    ensures { PowerOnBytes state.old picture.old font.now result state.new picture.new said.new }
{
    if state.len() != SIZE {
        return no_state(said);
    }
    let on = power::power_on(picture, font);
    statewrites::write(state, on.panel.line, on.panel.body);
    told(said, on)
}

// A piece of the line.
// Kept: eight parameters, which are the C interface's naupelys_line.
pub fn naupelys_line(
    state: &mut [u8],
    piece: &[u8],
    picture: &mut [u8],
    font: &[u8],
    list: &mut [u8],
    reply: &mut [u8],
    faults: &mut [u8],
    said: &mut [u8; SAID],
) -> u8
    ensures { LineBytes state.old (lent piece.now picture.old font.now list.old reply.old (records_in (length faults.old))) faults.old result state.new picture.new list.new reply.new faults.new said.new }
{
    linebytes::line(state, piece, picture, font, list, reply, faults, said)
}

// A key goes down or up.
pub fn naupelys_key(
    state: &mut [u8],
    key: u32,
    down: bool,
    reply: &mut [u8],
    said: &mut [u8; SAID],
) -> u8
    ensures { KeyBytes state.old key down reply.old result state.new reply.new said.new }
{
    match panel_in(state) {
        None => no_state(said),
        Some(p) => {
            let s = events::keys::key(p, key, down, reply);
            ended(state, s, said)
        }
    }
}

// The level at a pin.
pub fn naupelys_pin(state: &mut [u8], pin: u32, high: bool, said: &mut [u8; SAID]) -> u8
    ensures { PinBytes state.old pin high result state.new said.new }
{
    match panel_in(state) {
        None => no_state(said),
        Some(p) => {
            let s = events::pins::pin(p, pin, high);
            ended(state, s, said)
        }
    }
}

// The cells that a glyph is on. The state is only read.
pub fn naupelys_symbol_cells(state: &[u8], glyph: u32, list: &mut [u8], said: &mut [u8; SAID]) -> u8
    ensures { CellsBytes state.now glyph list.old result list.new said.new }
{
    match panel_in(state) {
        None => no_state(said),
        Some(p) => {
            let s = symbols::cells(p, glyph, list);
            told(said, s)
        }
    }
}
