// The cursor's style, the contrast and the backlight, composed for a C caller: each hands on to the one composer.
// Kept: a function for each command, since include/naupelys_host.h gives each its own name and plain values.
#![tactic(auto)]

ghost use Rattle.std.specs.Prelude.{[]};
ghost use Rattle.host.specs.Calls.{CommandBytes};

use commands::Command;
use saidbytes::SAID;

pub fn naupelys_compose_style(style: u8, packet: &mut [u8], said: &mut [u8; SAID]) -> u8
    ensures { CommandBytes (Command.SetStyle style) [] packet.old result packet.new said.new }
{
    host::command(Command::SetStyle { style }, &[], packet, said)
}

pub fn naupelys_compose_contrast(contrast: u8, packet: &mut [u8], said: &mut [u8; SAID]) -> u8
    ensures { CommandBytes (Command.SetContrast contrast) [] packet.old result packet.new said.new }
{
    host::command(Command::SetContrast { contrast }, &[], packet, said)
}

pub fn naupelys_compose_backlight(backlight: u8, packet: &mut [u8], said: &mut [u8; SAID]) -> u8
    ensures { CommandBytes (Command.SetBacklight backlight) [] packet.old result packet.new said.new }
{
    host::command(Command::SetBacklight { backlight }, &[], packet, said)
}
