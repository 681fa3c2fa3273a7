// The panel's calls for C, by the names of include/naupelys.h: each is the library's, with its promise.
#![tactic(auto)]

ghost use Rattle.naupelys.specs.Calls.{PowerOnBytes, KeyBytes, PinBytes, CellsBytes};
ghost use Rattle.std.specs.Prelude.{length};
ghost use Rattle.linecall.specs.Line.{lent};
ghost use Rattle.linebytes.specs.Line.{records_in, LineBytes};

use saidbytes::SAID;

// The panel at power-on. It needs no state that can be read, only the room for one.
// Kept: four parameters, which are the C interface's naupelys_power_on.
#[unsafe(no_mangle)]
pub extern "C" fn naupelys_power_on(
    state: &mut [u8],
    picture: &mut [u8],
    font: &[u8],
    said: &mut [u8; SAID],
) -> u8
    ensures { PowerOnBytes state.old picture.old font.now result state.new picture.new said.new }
{
    naupelys::naupelys_power_on(state, picture, font, said)
}

// A piece of the line.
// Kept: eight parameters, which are the C interface's naupelys_line.
#[unsafe(no_mangle)]
pub extern "C" fn naupelys_line(
    state: &mut [u8],
    piece: &[u8],
    picture: &mut [u8],
    font: &[u8],
    list: &mut [u8],
    reply: &mut [u8],
    faults: &mut [u8],
    said: &mut [u8; SAID],
) -> u8
    ensures { LineBytes state.old (lent piece.now picture.old font.now list.old reply.old (records_in (length faults.old))) faults.old result state.new picture.new list.new reply.new faults.new said.new }
{
    naupelys::naupelys_line(state, piece, picture, font, list, reply, faults, said)
}

// A key goes down or up.
#[unsafe(no_mangle)]
pub extern "C" fn naupelys_key(
    state: &mut [u8],
    key: u32,
    down: bool,
    reply: &mut [u8],
    said: &mut [u8; SAID],
) -> u8
    ensures { KeyBytes state.old key down reply.old result state.new reply.new said.new }
{
    naupelys::naupelys_key(state, key, down, reply, said)
}

// The level at a pin.
#[unsafe(no_mangle)]
pub extern "C" fn naupelys_pin(state: &mut [u8], pin: u32, high: bool, said: &mut [u8; SAID]) -> u8
    ensures { PinBytes state.old pin high result state.new said.new }
{
    naupelys::naupelys_pin(state, pin, high, said)
}

// The cells that a glyph is on. The state is only read.
#[unsafe(no_mangle)]
pub extern "C" fn naupelys_symbol_cells(
    state: &[u8],
    glyph: u32,
    list: &mut [u8],
    said: &mut [u8; SAID],
) -> u8
    ensures { CellsBytes state.now glyph list.old result list.new said.new }
{
    naupelys::naupelys_symbol_cells(state, glyph, list, said)
}
