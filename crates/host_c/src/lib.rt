// The host's calls for C, by the names of include/naupelys_host.h: each is the library's, with its promise.
// Kept: buffers of any length and a number for each answer, since C calls these names.
#![tactic(auto)]

ghost use Rattle.commands.specs.declared.Command.{Command};
ghost use Rattle.host.specs.Calls.{ComposeBytes, CommandBytes};
ghost use Rattle.std.specs.Prelude.{[]};
ghost use Rattle.hostreads.specs.Reads.{ReadBytes};
ghost use Rattle.hostrecordings.specs.Next.{TellsNext};

use hostreads::READING;
use saidbytes::SAID;

// The packet of a code and data bytes.
#[unsafe(no_mangle)]
pub extern "C" fn naupelys_compose(
    code: u32,
    data: &[u8],
    packet: &mut [u8],
    said: &mut [u8; SAID],
) -> u8
    ensures { ComposeBytes code «data».now packet.old result packet.new said.new }
{
    host::naupelys_compose(code, data, packet, said)
}

#[unsafe(no_mangle)]
pub extern "C" fn naupelys_compose_glyph(
    index: u8,
    rows: &[u8],
    packet: &mut [u8],
    said: &mut [u8; SAID],
) -> u8
    ensures { CommandBytes (Command.SetGlyph index) rows.now packet.old result packet.new said.new }
{
    hostscreen::naupelys_compose_glyph(index, rows, packet, said)
}

#[unsafe(no_mangle)]
pub extern "C" fn naupelys_compose_cursor(
    column: u8,
    row: u8,
    packet: &mut [u8],
    said: &mut [u8; SAID],
) -> u8
    ensures { CommandBytes (Command.SetCursor column row) [] packet.old result packet.new said.new }
{
    hostscreen::naupelys_compose_cursor(column, row, packet, said)
}

#[unsafe(no_mangle)]
pub extern "C" fn naupelys_compose_text(
    column: u8,
    row: u8,
    text: &[u8],
    packet: &mut [u8],
    said: &mut [u8; SAID],
) -> u8
    ensures { CommandBytes (Command.WriteText column row) text.now packet.old result packet.new said.new }
{
    hostscreen::naupelys_compose_text(column, row, text, packet, said)
}

#[unsafe(no_mangle)]
pub extern "C" fn naupelys_compose_style(style: u8, packet: &mut [u8], said: &mut [u8; SAID]) -> u8
    ensures { CommandBytes (Command.SetStyle style) [] packet.old result packet.new said.new }
{
    hostdials::naupelys_compose_style(style, packet, said)
}

#[unsafe(no_mangle)]
pub extern "C" fn naupelys_compose_contrast(
    contrast: u8,
    packet: &mut [u8],
    said: &mut [u8; SAID],
) -> u8
    ensures { CommandBytes (Command.SetContrast contrast) [] packet.old result packet.new said.new }
{
    hostdials::naupelys_compose_contrast(contrast, packet, said)
}

#[unsafe(no_mangle)]
pub extern "C" fn naupelys_compose_backlight(
    backlight: u8,
    packet: &mut [u8],
    said: &mut [u8; SAID],
) -> u8
    ensures { CommandBytes (Command.SetBacklight backlight) [] packet.old result packet.new said.new }
{
    hostdials::naupelys_compose_backlight(backlight, packet, said)
}

#[unsafe(no_mangle)]
pub extern "C" fn naupelys_compose_ping(data: &[u8], packet: &mut [u8], said: &mut [u8; SAID]) -> u8
    ensures { CommandBytes Command.Ping «data».now packet.old result packet.new said.new }
{
    hostmodule::naupelys_compose_ping(data, packet, said)
}

#[unsafe(no_mangle)]
pub extern "C" fn naupelys_compose_flash(
    flash: &[u8],
    packet: &mut [u8],
    said: &mut [u8; SAID],
) -> u8
    ensures { CommandBytes Command.WriteFlash flash.now packet.old result packet.new said.new }
{
    hostmodule::naupelys_compose_flash(flash, packet, said)
}

#[unsafe(no_mangle)]
pub extern "C" fn naupelys_compose_reboot(packet: &mut [u8], said: &mut [u8; SAID]) -> u8
    ensures { CommandBytes Command.Reboot [] packet.old result packet.new said.new }
{
    hostmodule::naupelys_compose_reboot(packet, said)
}

#[unsafe(no_mangle)]
pub extern "C" fn naupelys_compose_memory(
    address: u8,
    packet: &mut [u8],
    said: &mut [u8; SAID],
) -> u8
    ensures { CommandBytes (Command.ReadMemory address) [] packet.old result packet.new said.new }
{
    hostmodule::naupelys_compose_memory(address, packet, said)
}

#[unsafe(no_mangle)]
pub extern "C" fn naupelys_compose_masks(
    press: u8,
    release: u8,
    packet: &mut [u8],
    said: &mut [u8; SAID],
) -> u8
    ensures { CommandBytes (Command.SetMasks press release) [] packet.old result packet.new said.new }
{
    hostpins::naupelys_compose_masks(press, release, packet, said)
}

#[unsafe(no_mangle)]
pub extern "C" fn naupelys_compose_pin(
    pin: u8,
    level: u8,
    packet: &mut [u8],
    said: &mut [u8; SAID],
) -> u8
    ensures { CommandBytes (Command.SetPin pin level) [] packet.old result packet.new said.new }
{
    hostpins::naupelys_compose_pin(pin, level, packet, said)
}

#[unsafe(no_mangle)]
pub extern "C" fn naupelys_compose_pin_config(
    pin: u8,
    level: u8,
    config: u8,
    packet: &mut [u8],
    said: &mut [u8; SAID],
) -> u8
    ensures { CommandBytes (Command.ConfigurePin pin level config) [] packet.old result packet.new said.new }
{
    hostpins::naupelys_compose_pin_config(pin, level, config, packet, said)
}

#[unsafe(no_mangle)]
pub extern "C" fn naupelys_compose_read_pin(pin: u8, packet: &mut [u8], said: &mut [u8; SAID]) -> u8
    ensures { CommandBytes (Command.ReadPin pin) [] packet.old result packet.new said.new }
{
    hostpins::naupelys_compose_read_pin(pin, packet, said)
}

// What the bytes mean, where they are exactly one reply, error reply or report that a panel can write.
#[unsafe(no_mangle)]
pub extern "C" fn naupelys_read_reply(bytes: &[u8], out: &mut [u8; READING]) -> u8
    ensures { ReadBytes bytes.now result out.new }
{
    hostreads::naupelys_read_reply(bytes, out)
}

// The next host packet from the place on. Without one the lent numbers are as they came.
#[unsafe(no_mangle)]
pub extern "C" fn naupelys_recording_next(
    recording: &[u8],
    place: &mut usize,
    kind: &mut u8,
    start: &mut usize,
    length: &mut usize,
) -> u8
    ensures { TellsNext recording.now place.old kind.old start.old length.old result place.new kind.new start.new length.new }
{
    hostrecordings::naupelys_recording_next(recording, place, kind, start, length)
}
