// Whether a state is in its ranges.
#![tactic(auto)]

ghost use Rattle.std.specs.Prelude.{◌≡◌};
ghost use Rattle.sets.specs.Sets.{is_search};
ghost use Rattle.ranges.specs.Ranges.{configs_in_range, cursor_in_range, dials_in_range, masks_in_range, settings_in_range, AllAtMost, PartsRange, InputsRange, Ranges};

use packets::HELD;
use panel::{Cursor, Dials, Keys, Masks, Panel, Pins, Settings};

#[tactic(auto, unfolding(crate::specs::Ranges::cursor_in_range))]
fn cursor_in_range(c: Cursor) -> bool
    ensures { result ≡ cursor_in_range c }
{
    (c.column <= 19) & (c.row <= 3)
}

#[tactic(auto, unfolding(crate::specs::Ranges::dials_in_range, crate::specs::Ranges::all_of))]
fn dials_in_range(d: Dials) -> bool
    ensures { result ≡ dials_in_range d }
{
    (d.style <= 4) & (d.contrast <= 254) & (d.backlight <= 100)
}

#[tactic(auto, unfolding(crate::specs::Ranges::masks_in_range))]
fn masks_in_range(m: Masks) -> bool
    ensures { result ≡ masks_in_range m }
{
    (m.press <= 63) & (m.release <= 63)
}

// Whether each byte is at most `most`. No byte ends the test, so that it goes sixteen bytes at a time.
pub fn all_at_most(bytes: &[u8], most: u8) -> bool
    ensures { AllAtMost bytes.now most result }
{
    bytes.iter().fold(true, |ok, x| ok & (*x <= most))
}

fn configs_in_range(configs: &[u8]) -> bool
    ensures { result ≡ configs_in_range configs.now }
{
    configs
        .iter()
        .fold(true, |ok, x| ok & table::config_allowed(*x))
}

// Whether settings of these parts are in their ranges. A text is free, so that none is asked for.
// Kept: six parameters, since `PartsRange` and `parts_in_range_determined` speak of each part.
#[tactic(auto, unfolding(crate::specs::Ranges::parts_in_range))]
pub fn parts_in_range(
    glyphs: &[u8],
    cursor: Cursor,
    dials: Dials,
    masks: Masks,
    levels: &[u8],
    configs: &[u8],
) -> bool
    ensures { PartsRange glyphs.now cursor dials masks levels.now configs.now result }
{
    all_at_most(glyphs, 63)
        & cursor_in_range(cursor)
        & dials_in_range(dials)
        & masks_in_range(masks)
        & all_at_most(levels, 100)
        & configs_in_range(configs)
}

fn settings_in_range(s: Settings) -> bool
    ensures { result ≡ settings_in_range s }
{
    parts_in_range(
        &s.shown.glyphs,
        s.cursor,
        s.dials,
        s.masks,
        &s.wires.levels,
        &s.wires.configs,
    )
}

// Whether the bits of keys and pins are in their ranges: there are six keys and five such pins.
#[tactic(auto, unfolding(crate::specs::Ranges::keys_in_range, crate::specs::Ranges::pins_in_range))]
pub fn inputs_in_range(k: Keys, p: Pins) -> bool
    ensures { InputsRange k p result }
{
    let keys = (k.down <= 63) & (k.pressed <= 63) & (k.released <= 63);
    let pins = (p.last <= 31) & (p.fell <= 31) & (p.rose <= 31);
    keys & pins
}

#[tactic(auto, unfolding(crate::specs::Ranges::in_ranges))]
pub fn in_ranges(p: Panel) -> bool
    ensures { Ranges p result }
{
    let b = p.body;
    (p.line.hold.count <= HELD)
        & settings_in_range(b.live)
        & settings_in_range(b.boot)
        & inputs_in_range(b.keys, b.pins)
        & sets::right(&b.live.shown.text, &b.sets)
}
