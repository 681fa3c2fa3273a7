// A packet's code and data read back as a command, where the panel allows them.
#![tactic(auto)]

ghost use Rattle.commandreads.specs.Backwards.{ReadsCommand};

use commands::Command;

// The command that a code and data bytes are, where the panel allows them.
// Kept: the codes are the paper's own numbers (`candidates`).
#[tactic(auto, using(lists::proofs::Laws::when_true, lists::proofs::Laws::when_false), unfolding(crate::specs::Backwards::named_by, crate::specs::Backwards::first_with, commands::specs::Commands::form_of))]
pub fn command_of(code: u8, content: &[u8]) -> Option<Command>
    ensures { ReadsCommand code content.now result }
{
    verdict::verdict_on(code, content).ok()?;
    match (code, content) {
        (0, _) => Some(Command::Ping),
        (1, []) => Some(Command::Version),
        (2, _) => Some(Command::WriteFlash),
        (3, []) => Some(Command::ReadFlash),
        (4, []) => Some(Command::StoreBoot),
        (5, [_, _, _]) => Some(Command::Reboot),
        (6, []) => Some(Command::Clear),
        (9, [index, ..]) => Some(Command::SetGlyph { index: *index }),
        (10, [address]) => Some(Command::ReadMemory { address: *address }),
        (11, [column, row]) => Some(Command::SetCursor {
            column: *column,
            row: *row,
        }),
        (12, [style]) => Some(Command::SetStyle { style: *style }),
        (13, [contrast]) => Some(Command::SetContrast {
            contrast: *contrast,
        }),
        (14, [backlight]) => Some(Command::SetBacklight {
            backlight: *backlight,
        }),
        (23, [press, release]) => Some(Command::SetMasks {
            press: *press,
            release: *release,
        }),
        (24, []) => Some(Command::Poll),
        (31, [column, row, ..]) => Some(Command::WriteText {
            column: *column,
            row: *row,
        }),
        (34, [pin, level]) => Some(Command::SetPin {
            pin: *pin,
            level: *level,
        }),
        (34, [pin, level, config]) => Some(Command::ConfigurePin {
            pin: *pin,
            level: *level,
            config: *config,
        }),
        (35, [pin]) => Some(Command::ReadPin { pin: *pin }),
        _ => None,
    }
}
