// The register of faults as bytes: its records, one behind the other.
#![tactic(auto)]

ghost use Rattle.std.specs.Prelude.{◌≡◌, ◌+◌, ◌*◌, ◌≤◌, length};
ghost use Rattle.shapes.specs.Shape.{bytes, size};
ghost use Rattle.registerbytes.specs.Register.{record_shape, record_parts, record_at, ReadsRegister, WritesRegister};

use filing::{RECORDS, Record};
use shapes::words::{word_bytes, word_of};
use std::array;

// How many bytes a record takes, and a register.
pub const RECORD: usize = 7;

pub const REGISTER: usize = RECORDS * RECORD;

fn record_at(faults: &[u8], k: usize) -> Record
    requires { k + size record_shape ≤ length faults.now }
    ensures { result ≡ record_at faults.now k }
{
    Record {
        command: faults[k],
        reason: faults[k + 1],
        place: faults[k + 2],
        count: word_of(faults[k + 3], faults[k + 4], faults[k + 5], faults[k + 6]),
    }
}

fn record_bytes(r: Record) -> [u8; RECORD]
    ensures { result ≡ bytes record_shape (record_parts r) }
{
    let [a, b, c, d] = word_bytes(r.count);
    [r.command, r.reason, r.place, a, b, c, d]
}

// The records that the bytes are; free ones where the bytes are no register.
pub fn read(faults: &[u8]) -> [Record; RECORDS]
    ensures { ReadsRegister faults.now result }
{
    if faults.len() != REGISTER {
        return filing::empty();
    }
    array::from_fn(|i| record_at(faults, i * RECORD))
}

// The records written as their bytes; bytes that are no register are left alone.
pub fn write(faults: &mut [u8], records: [Record; RECORDS])
    ensures { WritesRegister faults.old records faults.new }
{
    if faults.len() != REGISTER {
        return;
    }
    for (i, r) in records.iter().enumerate() {
        lists::paste(faults, i * RECORD, &record_bytes(*r));
    }
}
