// The eight special glyphs: an array of eight-byte arrays while they are drawn, flat in the state; and which codes draw them.
#![tactic(auto)]

ghost use Rattle.std.specs.Prelude.{◌*◌, ◌<◌};
ghost use Rattle.glyphs.specs.Glyphs.{Reads8, Nests, SetsGlyph};
ghost use Rattle.glyphs.specs.Source.{TellsSpecial};

use std::array;

// How many glyphs there are, the rows of each, and the bytes of all.
pub const GLYPHS: usize = 8;

pub const ROWS: usize = 8;

pub const FLAT: usize = GLYPHS * ROWS;

// How many codes draw a special glyph, two each: a host whose strings end at 0 writes 8 for glyph 0 (document 02, order 2).
const SPECIAL_CODES: u8 = 16;

// Whether a code draws a special glyph; the others draw from the font.
pub fn is_special(code: u8) -> bool
    ensures { TellsSpecial code result }
{
    code < SPECIAL_CODES
}

// The eight bytes from an index on, zeros past the end.
pub fn eight(bytes: &[u8], from: u16) -> [u8; ROWS]
    ensures { Reads8 bytes.now from result }
{
    array::from_fn(|k| lists::at(bytes, usize::from(from) + k))
}

// The glyphs as eight arrays of eight rows.
pub fn nested(flat: [u8; FLAT]) -> [[u8; ROWS]; GLYPHS]
    ensures { Nests flat result }
{
    array::from_fn(
        |n| -> [u8; ROWS]
            requires { n < GLYPHS }
            ensures { Reads8 flat (8 * n) result }
        { eight(&flat, (ROWS * n) as u16) },
    )
}

// The glyphs with one of them set; where there is none of that number, as they are.
pub fn with_glyph(mut flat: [u8; FLAT], number: u8, rows: [u8; ROWS]) -> [u8; FLAT]
    ensures { SetsGlyph flat number rows result }
{
    lists::paste(&mut flat, ROWS * lists::wide(number), &rows);
    flat
}
