// A register of free records, and what filing does with one record and with the unfiled number: all on plain values.
#![tactic(auto)]

ghost use Rattle.filing.specs.Filing.{FilesOne, Unfiles, Empties};

// How many records a register has.
pub const RECORDS: usize = 64;

// A record of the register. A count of 0 makes it free, whatever its key.
// Kept: its reason is a number, since the register's bytes may be any (`ReadsRegister`).
#[derive(Clone, Copy, Default)]
pub struct Record {
    pub command: u8,
    pub reason: u8,
    pub place: u8,
    pub count: u32,
}

// The key of a refusal.
// Kept: numbers, as a record has them.
#[derive(Clone, Copy, PartialEq, Eq)]
pub struct Refusal {
    pub command: u8,
    pub reason: u8,
    pub place: u8,
}

// A record and the unfiled number after a filing.
#[derive(Clone, Copy)]
pub struct Filed {
    pub fault: Record,
    pub unfiled: u32,
}

// A register of free records.
pub fn empty() -> [Record; RECORDS]
    ensures { Empties result }
{
    [Record::default(); RECORDS]
}

// One more refusal that no record holds.
pub fn unfiled_more(unfiled: u32) -> u32
    ensures { Unfiles unfiled result }
{
    unfiled.saturating_add(1)
}

// One more in a record that is free or has the key; in the unfiled number where the record's count is full.
pub fn filed_in(k: Refusal, r: Record, unfiled: u32) -> Filed
    ensures { FilesOne k r unfiled result }
{
    let Some(count) = r.count.checked_add(1) else {
        return Filed {
            fault: r,
            unfiled: unfiled_more(unfiled),
        };
    };
    let fault = Record {
        command: k.command,
        reason: k.reason,
        place: k.place,
        count,
    };
    Filed { fault, unfiled }
}
