// The panel's state, by value: what it is made of and how it starts. The line's part and the body never read each other.
#![tactic(auto)]

ghost use Rattle.std.specs.Prelude.{◌≡◌};
ghost use Rattle.panel.specs.State.{factory_settings, Starts};

use packets::Hold;

// How many codes are shown, rows the glyphs have, pins there are and pins with an input, and bytes the flash has.
pub const CODES: usize = sets::CELLS;

pub const GLYPH_ROWS: usize = 64;

pub const PINS: usize = 13;

pub const INPUTS: usize = 5;

pub const FLASH_BYTES: usize = 16;

// The line's part: the held bytes, and how many refusals no record of the register holds.
#[derive(Clone, Copy)]
pub struct Line {
    pub hold: Hold,
    pub unfiled: u32,
}

// What is shown: the 80 codes, and the special glyphs of eight rows each, one glyph behind the other.
#[derive(Clone, Copy)]
pub struct Shown {
    pub text: [u8; CODES],
    pub glyphs: [u8; GLYPH_ROWS],
}

#[derive(Clone, Copy)]
pub struct Cursor {
    pub column: u8,
    pub row: u8,
}

#[derive(Clone, Copy)]
pub struct Dials {
    pub style: u8,
    pub contrast: u8,
    pub backlight: u8,
}

// Which key presses and releases are reported: a bit for each key.
#[derive(Clone, Copy)]
pub struct Masks {
    pub press: u8,
    pub release: u8,
}

// Levels of all 13 pins, configs of pins 0 to 4.
#[derive(Clone, Copy)]
pub struct Wires {
    pub levels: [u8; PINS],
    pub configs: [u8; INPUTS],
}

// What command 4 stores and command 5 brings back.
#[derive(Clone, Copy)]
pub struct Settings {
    pub shown: Shown,
    pub cursor: Cursor,
    pub dials: Dials,
    pub masks: Masks,
    pub wires: Wires,
}

// Command 24's three bytes: a bit for each key.
#[derive(Clone, Copy)]
pub struct Keys {
    pub down: u8,
    pub pressed: u8,
    pub released: u8,
}

// Of pins 0 to 4, a bit for each: the last level, and whether it fell or rose since it was read.
#[derive(Clone, Copy)]
pub struct Pins {
    pub last: u8,
    pub fell: u8,
    pub rose: u8,
}

// All that a command reads or changes. The sets are those of the live text: which cells draw each special glyph.
#[derive(Clone, Copy)]
pub struct Body {
    pub live: Settings,
    pub boot: Settings,
    pub keys: Keys,
    pub pins: Pins,
    pub flash: [u8; FLASH_BYTES],
    pub sets: [u8; CODES],
}

#[derive(Clone, Copy)]
pub struct Panel {
    pub line: Line,
    pub body: Body,
}

// The factory boot state.
#[tactic(auto, unfolding(crate::specs::State::factory_settings))]
fn factory() -> Settings
    ensures { result ≡ factory_settings }
{
    Settings {
        shown: Shown {
            text: [32u8; CODES],
            glyphs: [0u8; GLYPH_ROWS],
        },
        cursor: Cursor { column: 0, row: 0 },
        dials: Dials {
            style: 0,
            contrast: 95,
            backlight: 100,
        },
        masks: Masks {
            press: 63,
            release: 63,
        },
        wires: Wires {
            levels: [0u8; PINS],
            configs: [2, 3, 2, 2, 2],
        },
    }
}

// The state at power-on. No space draws a special glyph, so that no cell is in a set.
pub fn powered_on() -> Panel
    ensures { Starts result }
{
    let live = factory();
    Panel {
        line: Line {
            hold: packets::empty(),
            unfiled: 0,
        },
        body: Body {
            live,
            boot: live,
            keys: Keys {
                down: 0,
                pressed: 0,
                released: 0,
            },
            pins: Pins {
                last: 0,
                fell: 0,
                rose: 0,
            },
            flash: [0u8; FLASH_BYTES],
            sets: [0u8; CODES],
        },
    }
}
