// A glyph, the cursor's place and a text, composed for a C caller: each hands on to the one composer.
// Kept: a function for each command, since include/naupelys_host.h gives each its own name and plain values.
#![tactic(auto)]

ghost use Rattle.std.specs.Prelude.{[]};
ghost use Rattle.host.specs.Calls.{CommandBytes};

use commands::Command;
use saidbytes::SAID;

pub fn naupelys_compose_glyph(
    index: u8,
    rows: &[u8],
    packet: &mut [u8],
    said: &mut [u8; SAID],
) -> u8
    ensures { CommandBytes (Command.SetGlyph index) rows.now packet.old result packet.new said.new }
{
    host::command(Command::SetGlyph { index }, rows, packet, said)
}

pub fn naupelys_compose_cursor(column: u8, row: u8, packet: &mut [u8], said: &mut [u8; SAID]) -> u8
    ensures { CommandBytes (Command.SetCursor column row) [] packet.old result packet.new said.new }
{
    host::command(Command::SetCursor { column, row }, &[], packet, said)
}

pub fn naupelys_compose_text(
    column: u8,
    row: u8,
    text: &[u8],
    packet: &mut [u8],
    said: &mut [u8; SAID],
) -> u8
    ensures { CommandBytes (Command.WriteText column row) text.now packet.old result packet.new said.new }
{
    host::command(Command::WriteText { column, row }, text, packet, said)
}
