// The commands as values, for a host: each with its plain values, composed as a packet.
#![tactic(auto)]

ghost use Rattle.std.specs.Prelude.{◌++◌, ◌≤◌, length};
ghost use Rattle.composer.specs.Compose.{ComposesFor};
ghost use Rattle.commands.specs.Commands.{values_most, ComposesCommand, ReadsBytes};

use composer::{ComposeError, Written};
use packets::CONTENT;

// The eighteen commands, the one that sets a pin with and without its config. The bytes of a ping, of the flash, of a glyph's rows
// and of a text stand beside the command, in a slice.
#[derive(Clone, Copy, PartialEq, Eq)]
pub enum Command {
    Ping,
    Version,
    WriteFlash,
    ReadFlash,
    StoreBoot,
    Reboot,
    Clear,
    SetGlyph { index: u8 },
    ReadMemory { address: u8 },
    SetCursor { column: u8, row: u8 },
    SetStyle { style: u8 },
    SetContrast { contrast: u8 },
    SetBacklight { backlight: u8 },
    SetMasks { press: u8, release: u8 },
    Poll,
    WriteText { column: u8, row: u8 },
    SetPin { pin: u8, level: u8 },
    ConfigurePin { pin: u8, level: u8, config: u8 },
    ReadPin { pin: u8 },
}

// Room for one data byte more than a packet can have: with so many, more of them change nothing.
const ROOM: usize = CONTENT + 1;

// The packet of a code, the values that its data begins with and the bytes behind them.
fn with_bytes(
    packet: &mut [u8],
    code: u8,
    values: &[u8],
    bytes: &[u8],
) -> Result<Written, ComposeError>
    requires { length values.now ≤ values_most }
    ensures { ComposesFor packet.old code (values.now ++ bytes.now) result packet.new }
{
    let count = values.len();
    let more = bytes.len().min(ROOM - count);
    let mut content = [0u8; ROOM];
    lists::paste(&mut content, 0, values);
    lists::paste(&mut content, count, &bytes[..more]);
    composer::compose(packet, u32::from(code), &content[..count + more])
}

// The packet of a command and the bytes that follow its values at the front of a lent buffer of 26, or why there is none.
// Kept: the codes are the paper's own numbers, as `form_of` has them.
#[tactic(auto, unfolding(crate::specs::Commands::form_of))]
pub fn compose(packet: &mut [u8], c: Command, bytes: &[u8]) -> Result<Written, ComposeError>
    ensures { ComposesCommand packet.old c bytes.now result packet.new }
{
    match c {
        Command::Ping => with_bytes(packet, 0, &[], bytes),
        Command::Version => with_bytes(packet, 1, &[], &[]),
        Command::WriteFlash => with_bytes(packet, 2, &[], bytes),
        Command::ReadFlash => with_bytes(packet, 3, &[], &[]),
        Command::StoreBoot => with_bytes(packet, 4, &[], &[]),
        Command::Reboot => with_bytes(packet, 5, &[8, 18, 99], &[]),
        Command::Clear => with_bytes(packet, 6, &[], &[]),
        Command::SetGlyph { index } => with_bytes(packet, 9, &[index], bytes),
        Command::ReadMemory { address } => with_bytes(packet, 10, &[address], &[]),
        Command::SetCursor { column, row } => with_bytes(packet, 11, &[column, row], &[]),
        Command::SetStyle { style } => with_bytes(packet, 12, &[style], &[]),
        Command::SetContrast { contrast } => with_bytes(packet, 13, &[contrast], &[]),
        Command::SetBacklight { backlight } => with_bytes(packet, 14, &[backlight], &[]),
        Command::SetMasks { press, release } => with_bytes(packet, 23, &[press, release], &[]),
        Command::Poll => with_bytes(packet, 24, &[], &[]),
        Command::WriteText { column, row } => with_bytes(packet, 31, &[column, row], bytes),
        Command::SetPin { pin, level } => with_bytes(packet, 34, &[pin, level], &[]),
        Command::ConfigurePin { pin, level, config } => {
            with_bytes(packet, 34, &[pin, level, config], &[])
        }
        Command::ReadPin { pin } => with_bytes(packet, 35, &[pin], &[]),
    }
}

// The bytes that follow a command's values in its data, as a part of the data.
#[tactic(auto, unfolding(crate::specs::Commands::form_of))]
pub fn bytes_of(c: Command, content: &[u8]) -> &[u8]
    ensures { ReadsBytes c content.now result.now }
{
    let values = match c {
        Command::Ping | Command::WriteFlash => 0,
        Command::SetGlyph { .. } => 1,
        Command::WriteText { .. } => 2,
        _ => content.len(),
    };
    &content[values.min(content.len())..]
}
