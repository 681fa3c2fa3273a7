// The panel written as the state's bytes.
#![tactic(auto)]

ghost use Rattle.std.specs.Prelude.{◌≡◌, length};
ghost use Rattle.shapes.specs.Shape.{size, Lays};
ghost use Rattle.statebytes.specs.Layout.{settings_shape, settings_parts, body_shape, body_parts, body_place};
ghost use Rattle.statebytes.specs.State.{WritesState};

use lists::paste;
use panel::{Body, Line, Settings};
use statebytes::line::write_line;
use statebytes::places::{
    BOOT, COLUMN, CONFIGS, DOWN, FLASH, GLYPHS, LAST, LEVELS, LIVE, PRESS, SETS, SIZE, STYLE, TEXT,
};

// Kept: a part of the state is lent as a slice; an array would be made of it first, with a case in which it is none.
fn lay_settings(out: &mut [u8], s: Settings)
    requires { length out.old ≡ size settings_shape }
    ensures { Lays settings_shape (settings_parts s) out.old 0 out.new }
{
    paste(out, TEXT, &s.shown.text);
    paste(out, GLYPHS, &s.shown.glyphs);
    paste(out, COLUMN, &[s.cursor.column, s.cursor.row]);
    paste(
        out,
        STYLE,
        &[s.dials.style, s.dials.contrast, s.dials.backlight],
    );
    paste(out, PRESS, &[s.masks.press, s.masks.release]);
    paste(out, LEVELS, &s.wires.levels);
    paste(out, CONFIGS, &s.wires.configs);
}

fn lay_body(state: &mut [u8; SIZE], b: Body)
    ensures { Lays body_shape (body_parts b) state.old body_place state.new }
{
    lay_settings(&mut state[LIVE..BOOT], b.live);
    lay_settings(&mut state[BOOT..DOWN], b.boot);
    paste(state, DOWN, &[b.keys.down, b.keys.pressed, b.keys.released]);
    paste(state, LAST, &[b.pins.last, b.pins.fell, b.pins.rose]);
    paste(state, FLASH, &b.flash);
    paste(state, SETS, &b.sets);
}

// The panel written; bytes that are no state are left alone.
pub fn write(state: &mut [u8], l: Line, b: Body)
    ensures { WritesState state.old l b state.new }
{
    if let Some(state) = state.as_mut_array() {
        write_line(state, l);
        lay_body(state, b);
    }
}
