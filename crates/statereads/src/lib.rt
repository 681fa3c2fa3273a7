// What the state's bytes say of the body, and whether they are in their ranges.
#![tactic(auto)]

ghost use Rattle.std.specs.Prelude.{◌≡◌, ◌+◌, ◌≤◌, length};
ghost use Rattle.shapes.specs.Shape.{run, value, Stands};
ghost use Rattle.ranges.specs.Ranges.{settings_in_range, sets_in_range, in_ranges};
ghost use Rattle.statebytes.specs.Layout.{cursor_shape, cursor_parts, cursor_place, dials_shape, dials_parts, dials_place, masks_shape, masks_parts, masks_place, settings_shape, settings_parts, settings_from, bits_shape, keys_parts, keys_place, pins_parts, pins_place, body_shape, body_parts, body_place};
ghost use Rattle.statebytes.specs.State.{panel_of, ReadsBody, RangesState};

use panel::{Body, Cursor, Dials, Keys, Masks, Pins, Settings, Shown, Wires};
use statebytes::places::{
    BACKLIGHT, BOOT, COLUMN, CONFIGS, CONTRAST, COUNT, DOWN, FELL, FLASH, GLYPHS, LAST, LEVELS,
    LIVE, PRESS, PRESSED, RELEASE, RELEASED, ROSE, ROW, SETS, SETTINGS, SIZE, STYLE, TEXT,
};

// Where the live text stands, and where it ends.
const LIVE_TEXT: usize = LIVE + TEXT;

const LIVE_GLYPHS: usize = LIVE + GLYPHS;

// The N bytes that stand at a place.
// Kept: statebytes has the same for the line; a public one would ask something of its callers, which no public function here does.
fn part<const N: usize>(bytes: &[u8], place: usize) -> &[u8; N]
    requires { place + N ≤ length bytes.now }
    ensures { Stands (run N) result.now bytes.now place }
{
    match bytes[place..].first_chunk() {
        Some(part) => part,
        None => unreachable!(),
    }
}

fn cursor_of(bytes: &[u8; SETTINGS]) -> Cursor
    ensures { Stands cursor_shape (cursor_parts result) bytes.now cursor_place }
{
    Cursor {
        column: bytes[COLUMN],
        row: bytes[ROW],
    }
}

fn dials_of(bytes: &[u8; SETTINGS]) -> Dials
    ensures { Stands dials_shape (dials_parts result) bytes.now dials_place }
{
    Dials {
        style: bytes[STYLE],
        contrast: bytes[CONTRAST],
        backlight: bytes[BACKLIGHT],
    }
}

fn masks_of(bytes: &[u8; SETTINGS]) -> Masks
    ensures { Stands masks_shape (masks_parts result) bytes.now masks_place }
{
    Masks {
        press: bytes[PRESS],
        release: bytes[RELEASE],
    }
}

fn settings_of(bytes: &[u8; SETTINGS]) -> Settings
    ensures { Stands settings_shape (settings_parts result) bytes.now 0 }
{
    Settings {
        shown: Shown {
            text: *part(bytes, TEXT),
            glyphs: *part(bytes, GLYPHS),
        },
        cursor: cursor_of(bytes),
        dials: dials_of(bytes),
        masks: masks_of(bytes),
        wires: Wires {
            levels: *part(bytes, LEVELS),
            configs: *part(bytes, CONFIGS),
        },
    }
}

// Kept: `keys_of`, `pins_of` and `dials_of` stay apart, since one function for three bytes would lose the fields' names.
fn keys_of(state: &[u8; SIZE]) -> Keys
    ensures { Stands bits_shape (keys_parts result) state.now keys_place }
{
    Keys {
        down: state[DOWN],
        pressed: state[PRESSED],
        released: state[RELEASED],
    }
}

fn pins_of(state: &[u8; SIZE]) -> Pins
    ensures { Stands bits_shape (pins_parts result) state.now pins_place }
{
    Pins {
        last: state[LAST],
        fell: state[FELL],
        rose: state[ROSE],
    }
}

fn body_of(state: &[u8; SIZE]) -> Body
    ensures { Stands body_shape (body_parts result) state.now body_place }
{
    Body {
        live: settings_of(part(state, LIVE)),
        boot: settings_of(part(state, BOOT)),
        keys: keys_of(state),
        pins: pins_of(state),
        flash: *part(state, FLASH),
        sets: *part(state, SETS),
    }
}

// The body of the panel that the bytes are.
pub fn read_body(state: &[u8]) -> Body
    ensures { ReadsBody state.now result }
{
    match state.as_array() {
        Some(state) => body_of(state),
        None => panel::powered_on().body,
    }
}

fn settings_in_range(bytes: &[u8; SETTINGS]) -> bool
    ensures { result ≡ settings_in_range (settings_from (value settings_shape bytes.now 0)) }
{
    ranges::parts_in_range(
        &bytes[GLYPHS..COLUMN],
        cursor_of(bytes),
        dials_of(bytes),
        masks_of(bytes),
        &bytes[LEVELS..CONFIGS],
        &bytes[CONFIGS..SETTINGS],
    )
}

// Whether the sets are those of the live text.
fn sets_in_range(state: &[u8; SIZE]) -> bool
    ensures { result ≡ sets_in_range (panel_of state.now).body }
{
    sets::right(&state[LIVE_TEXT..LIVE_GLYPHS], &state[SETS..SIZE])
}

// Whether the state is in its ranges, tested on the bytes where they stand.
fn ranges_of(state: &[u8; SIZE]) -> bool
    ensures { result ≡ in_ranges (panel_of state.now) }
{
    let count = state[COUNT] <= 25;
    let inputs = ranges::inputs_in_range(keys_of(state), pins_of(state));
    let live = settings_in_range(part(state, LIVE));
    let boot = settings_in_range(part(state, BOOT));
    let sets = sets_in_range(state);
    count & live & boot & inputs & sets
}

// Whether the bytes are a state in its ranges.
pub fn in_ranges(state: &[u8]) -> bool
    ensures { RangesState state.now result }
{
    match state.as_array() {
        Some(state) => ranges_of(state),
        None => false,
    }
}
