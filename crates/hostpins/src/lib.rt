// The masks of the keys and the pins, composed for a C caller: each hands on to the one composer.
// Kept: a function for each command, since include/naupelys_host.h gives each its own name and plain values.
#![tactic(auto)]

ghost use Rattle.std.specs.Prelude.{[]};
ghost use Rattle.host.specs.Calls.{CommandBytes};

use commands::Command;
use saidbytes::SAID;

pub fn naupelys_compose_masks(
    press: u8,
    release: u8,
    packet: &mut [u8],
    said: &mut [u8; SAID],
) -> u8
    ensures { CommandBytes (Command.SetMasks press release) [] packet.old result packet.new said.new }
{
    host::command(Command::SetMasks { press, release }, &[], packet, said)
}

pub fn naupelys_compose_pin(pin: u8, level: u8, packet: &mut [u8], said: &mut [u8; SAID]) -> u8
    ensures { CommandBytes (Command.SetPin pin level) [] packet.old result packet.new said.new }
{
    host::command(Command::SetPin { pin, level }, &[], packet, said)
}

pub fn naupelys_compose_pin_config(
    pin: u8,
    level: u8,
    config: u8,
    packet: &mut [u8],
    said: &mut [u8; SAID],
) -> u8
    ensures { CommandBytes (Command.ConfigurePin pin level config) [] packet.old result packet.new said.new }
{
    host::command(
        Command::ConfigurePin { pin, level, config },
        &[],
        packet,
        said,
    )
}

pub fn naupelys_compose_read_pin(pin: u8, packet: &mut [u8], said: &mut [u8; SAID]) -> u8
    ensures { CommandBytes (Command.ReadPin pin) [] packet.old result packet.new said.new }
{
    host::command(Command::ReadPin { pin }, &[], packet, said)
}
