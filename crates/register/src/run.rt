// Filing in the run of records.
ghost use Rattle.register.specs.Run.{FilesIn, FilesBack};

use crate::search::find;
use filing::{RECORDS, Record, Refusal, filed_in, unfiled_more};

// A register and the unfiled number after a filing.
#[derive(Clone, Copy)]
pub struct FiledIn {
    pub register: [Record; RECORDS],
    pub unfiled: u32,
}

// Files a refusal where there is one, and returns the unfiled number.
pub fn file(register: &mut [Record], refusal: Option<Refusal>, unfiled: u32) -> u32
    ensures { FilesIn register.old refusal unfiled result register.new }
{
    let Some(k) = refusal else { return unfiled };
    let Some(i) = find(register, k) else {
        return unfiled_more(unfiled);
    };
    let q = filed_in(k, register[i], unfiled);
    register[i] = q.fault;
    q.unfiled
}

// Files a refusal where there is one, in a register by value.
pub fn file_in(mut register: [Record; RECORDS], refusal: Option<Refusal>, unfiled: u32) -> FiledIn
    ensures { FilesBack register refusal unfiled result }
{
    let unfiled = file(&mut register, refusal, unfiled);
    FiledIn { register, unfiled }
}
