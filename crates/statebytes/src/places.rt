// Where each part stands: right behind the one before it.
use panel::{CODES, FLASH_BYTES, GLYPH_ROWS, INPUTS, PINS};
use shapes::words::WORD;

// In settings, from their first byte on.
pub const TEXT: usize = 0;

pub const GLYPHS: usize = TEXT + CODES;

pub const COLUMN: usize = GLYPHS + GLYPH_ROWS;

pub const ROW: usize = COLUMN + 1;

pub const STYLE: usize = ROW + 1;

pub const CONTRAST: usize = STYLE + 1;

pub const BACKLIGHT: usize = CONTRAST + 1;

pub const PRESS: usize = BACKLIGHT + 1;

pub const RELEASE: usize = PRESS + 1;

pub const LEVELS: usize = RELEASE + 1;

pub const CONFIGS: usize = LEVELS + PINS;

pub const SETTINGS: usize = CONFIGS + INPUTS;

// In the state.
pub const COUNT: usize = 0;

pub const HELD: usize = COUNT + 1;

pub const UNFILED: usize = HELD + packets::HELD;

pub const LIVE: usize = UNFILED + WORD;

pub const BOOT: usize = LIVE + SETTINGS;

pub const DOWN: usize = BOOT + SETTINGS;

pub const PRESSED: usize = DOWN + 1;

pub const RELEASED: usize = PRESSED + 1;

pub const LAST: usize = RELEASED + 1;

pub const FELL: usize = LAST + 1;

pub const ROSE: usize = FELL + 1;

pub const FLASH: usize = ROSE + 1;

pub const SETS: usize = FLASH + FLASH_BYTES;

pub const SIZE: usize = SETS + CODES;
