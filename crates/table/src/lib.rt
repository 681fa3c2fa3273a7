// The table of the commands: which lengths and which data each allows.
#![tactic(auto)]

ghost use Rattle.std.specs.Prelude.{◌≡◌};
ghost use Rattle.table.specs.Table.{Looks, Allows};

// The column "data allowed". Free: any bytes. UpTo(n): each byte 0 to n. Glyph: an index of a glyph, then rows. Address: an
// address that can be read. Place: a column and a row, then any text. Reboot: 8, 18, 99. Pin: a pin, a level, a config.
#[derive(Clone, Copy)]
pub enum Rule {
    Free,
    UpTo(u8),
    Glyph,
    Address,
    Place,
    Reboot,
    Pin,
}

// A row of the table, beside its code.
#[derive(Clone, Copy)]
pub struct Row {
    pub shortest: usize,
    pub longest: usize,
    pub rule: Rule,
}

fn of(shortest: usize, longest: usize, rule: Rule) -> Option<Row>
    ensures { result ≡ Some (record { shortest = shortest; longest = longest; rule = rule }) }
{
    Some(Row {
        shortest,
        longest,
        rule,
    })
}

// The row of a command's code, or none.
// Kept: the codes are the paper's own numbers, row by row as in its table, and any byte may come (`look_up`).
#[tactic(auto, using(lists::proofs::Laws::when_true, lists::proofs::Laws::when_false), unfolding(crate::specs::Table::look_up))]
pub fn look(code: u8) -> Option<Row>
    ensures { Looks code result }
{
    match code {
        0 => of(0, 22, Rule::Free),
        1 => of(0, 0, Rule::Free),
        2 => of(16, 16, Rule::Free),
        3 => of(0, 0, Rule::Free),
        4 => of(0, 0, Rule::Free),
        5 => of(3, 3, Rule::Reboot),
        6 => of(0, 0, Rule::Free),
        9 => of(9, 9, Rule::Glyph),
        10 => of(1, 1, Rule::Address),
        11 => of(2, 2, Rule::Place),
        12 => of(1, 1, Rule::UpTo(4)),
        13 => of(1, 1, Rule::UpTo(254)),
        14 => of(1, 1, Rule::UpTo(100)),
        23 => of(2, 2, Rule::UpTo(63)),
        24 => of(0, 0, Rule::Free),
        31 => of(3, 22, Rule::Place),
        34 => of(2, 3, Rule::Pin),
        35 => of(1, 1, Rule::UpTo(12)),
        _ => None,
    }
}

// Whether a pin can have a config: 0 to 15 with its low three bits not 6.
#[tactic(auto, unfolding(crate::specs::Table::config_allowed))]
pub fn config_allowed(config: u8) -> bool
    ensures { Allows config result }
{
    config < 16 && config % 8 != 6
}
