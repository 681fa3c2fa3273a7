// A ping, the flash, a reboot and the memory, composed for a C caller: each hands on to the one composer.
// Kept: a function for each command, since include/naupelys_host.h gives each its own name and plain values.
#![tactic(auto)]

ghost use Rattle.std.specs.Prelude.{[]};
ghost use Rattle.host.specs.Calls.{CommandBytes};

use commands::Command;
use saidbytes::SAID;

pub fn naupelys_compose_ping(data: &[u8], packet: &mut [u8], said: &mut [u8; SAID]) -> u8
    ensures { CommandBytes Command.Ping «data».now packet.old result packet.new said.new }
{
    host::command(Command::Ping, data, packet, said)
}

pub fn naupelys_compose_flash(flash: &[u8], packet: &mut [u8], said: &mut [u8; SAID]) -> u8
    ensures { CommandBytes Command.WriteFlash flash.now packet.old result packet.new said.new }
{
    host::command(Command::WriteFlash, flash, packet, said)
}

pub fn naupelys_compose_reboot(packet: &mut [u8], said: &mut [u8; SAID]) -> u8
    ensures { CommandBytes Command.Reboot [] packet.old result packet.new said.new }
{
    host::command(Command::Reboot, &[], packet, said)
}

pub fn naupelys_compose_memory(address: u8, packet: &mut [u8], said: &mut [u8; SAID]) -> u8
    ensures { CommandBytes (Command.ReadMemory address) [] packet.old result packet.new said.new }
{
    host::command(Command::ReadMemory { address }, &[], packet, said)
}
