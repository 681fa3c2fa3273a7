// What a command does to the body. Past the end of its data a command reads zeros.
#![tactic(auto)]

ghost use Rattle.std.specs.Prelude.{◌≡◌, set};
ghost use Rattle.panel.specs.State.{with_text};
ghost use Rattle.effects.specs.Effects.{with_flash, stored, polled, rebooted, cleared, glyph_set, text_written, pin_set, pin_read, live_after, effect, Affects};

use packets::{CONTENT, Packet};
use panel::{Body, CODES, Cursor, Dials, Keys, Masks, Pins, Settings, Shown, Wires};

fn write_flash(b: Body, content: &[u8]) -> Body
    ensures { result ≡ with_flash b content.now }
{
    let mut flash = b.flash;
    lists::paste(&mut flash, 0, content);
    Body { flash, ..b }
}

fn store(b: Body) -> Body
    ensures { result ≡ stored b }
{
    Body { boot: b.live, ..b }
}

fn poll(k: Keys) -> Keys
    ensures { result ≡ polled k }
{
    Keys {
        pressed: 0,
        released: 0,
        ..k
    }
}

// The body with live settings of another text: whoever changes the live text searches it for its sets.
fn with_text(b: Body, live: Settings) -> Body
    ensures { result ≡ with_text b live }
{
    Body {
        live,
        sets: sets::search(live.shown.text),
        ..b
    }
}

// A reboot by itself: more than command 5 may bring one about.
fn reboot(b: Body) -> Body
    ensures { result ≡ rebooted b }
{
    let cleared = Body {
        keys: poll(b.keys),
        pins: Pins {
            fell: 0,
            rose: 0,
            ..b.pins
        },
        ..b
    };
    with_text(cleared, b.boot)
}

fn clear(s: Settings) -> Settings
    ensures { result ≡ cleared s }
{
    Settings {
        shown: Shown {
            text: [32u8; CODES],
            ..s.shown
        },
        cursor: Cursor { column: 0, row: 0 },
        ..s
    }
}

fn set_glyph(s: Shown, content: &[u8]) -> Shown
    ensures { result ≡ glyph_set s content.now }
{
    let rows = glyphs::eight(content, 1);
    Shown {
        glyphs: glyphs::with_glyph(s.glyphs, lists::at(content, 0), rows),
        ..s
    }
}

fn write_text(s: Shown, content: &[u8]) -> Shown
    ensures { result ≡ text_written s content.now }
{
    let n = content.len().min(2);
    let column = lists::wide(lists::at(content, 0));
    let row = lists::wide(lists::at(content, 1));
    let mut text = s.text;
    lists::paste(&mut text, 20 * row + column, &content[n..]);
    Shown { text, ..s }
}

// The bytes with one of them set; where there is none at that place, as they are.
// Kept: by value, as `set` says it; with shapes' `lay_byte` a copy would have to be made first, which is no plainer.
fn with_byte<const N: usize>(mut bytes: [u8; N], place: usize, byte: u8) -> [u8; N]
    ensures { result ≡ set bytes.entry place byte }
{
    if place < N {
        bytes[place] = byte;
    }
    bytes
}

#[tactic(auto, using(lists::proofs::Laws::when_true, lists::proofs::Laws::when_false))]
fn set_pin(w: Wires, content: &[u8]) -> Wires
    ensures { result ≡ pin_set w content.now }
{
    let pin = lists::wide(lists::at(content, 0));
    let levels = with_byte(w.levels, pin, lists::at(content, 1));
    let configs = if content.len() == 3 {
        with_byte(w.configs, pin, lists::at(content, 2))
    } else {
        w.configs
    };
    Wires { levels, configs }
}

fn read_pin(p: Pins, content: &[u8]) -> Pins
    ensures { result ≡ pin_read p content.now }
{
    let pin = lists::at(content, 0);
    Pins {
        fell: bits::without_bit(p.fell, pin),
        rose: bits::without_bit(p.rose, pin),
        ..p
    }
}

// The live settings after a command that changes no text; most commands change nothing else.
// Kept: the codes are the paper's own numbers, by which the definition `live_after` says what each of the 64 does.
#[tactic(auto, using(lists::proofs::Laws::when_true, lists::proofs::Laws::when_false), unfolding(crate::specs::Effects::live_after))]
fn live_after(live: Settings, code: u8, content: &[u8]) -> Settings
    ensures { result ≡ live_after code content.now live }
{
    let first = lists::at(content, 0);
    let second = lists::at(content, 1);
    match code {
        9 => Settings {
            shown: set_glyph(live.shown, content),
            ..live
        },
        11 => Settings {
            cursor: Cursor {
                column: first,
                row: second,
            },
            ..live
        },
        12 => Settings {
            dials: Dials {
                style: first,
                ..live.dials
            },
            ..live
        },
        13 => Settings {
            dials: Dials {
                contrast: first,
                ..live.dials
            },
            ..live
        },
        14 => Settings {
            dials: Dials {
                backlight: first,
                ..live.dials
            },
            ..live
        },
        23 => Settings {
            masks: Masks {
                press: first,
                release: second,
            },
            ..live
        },
        34 => Settings {
            wires: set_pin(live.wires, content),
            ..live
        },
        _ => live,
    }
}

// Kept: the same numbers, by which the definition `effect` says what each of the 64 does.
#[tactic(auto, using(lists::proofs::Laws::when_true, lists::proofs::Laws::when_false), unfolding(crate::specs::Effects::effect))]
fn body_after(b: Body, code: u8, content: &[u8]) -> Body
    ensures { result ≡ effect code content.now b }
{
    match code {
        2 => write_flash(b, content),
        4 => store(b),
        5 => reboot(b),
        6 => with_text(b, clear(b.live)),
        24 => Body {
            keys: poll(b.keys),
            ..b
        },
        31 => {
            let live = Settings {
                shown: write_text(b.live.shown, content),
                ..b.live
            };
            with_text(b, live)
        }
        35 => Body {
            pins: read_pin(b.pins, content),
            ..b
        },
        _ => Body {
            live: live_after(b.live, code, content),
            ..b
        },
    }
}

// The body after the command that the low six type bits name. Whether the panel allows it is for the verdict to say.
pub fn effect_of(b: Body, p: Packet) -> Body
    ensures { Affects b p result }
{
    let n = p.length.min(CONTENT);
    body_after(b, p.kind % 64, &p.content[..n])
}
