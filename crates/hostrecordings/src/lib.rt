// Reading recordings for a C caller: the call of include/naupelys_host.h over a lent recording.
#![tactic(auto)]

ghost use Rattle.hostrecordings.specs.Next.{TellsNext};

// The numbers of an answer: there is no more, or a packet. Those of what is wrong with a recording are 22 to 26.
const NO_MORE: u8 = 1;

const PACKET: u8 = 3;

// The next host packet from the place on. Without one the lent numbers are as they came.
pub fn naupelys_recording_next(
    recording: &[u8],
    place: &mut usize,
    kind: &mut u8,
    start: &mut usize,
    length: &mut usize,
) -> u8
    ensures { TellsNext recording.now place.old kind.old start.old length.old result place.new kind.new start.new length.new }
{
    match recordings::find(recording, *place) {
        Ok(Some(f)) => {
            *place = f.next;
            *kind = f.kind;
            *start = f.start;
            *length = f.length;
            PACKET
        }
        Ok(None) => NO_MORE,
        Err(fault) => u8::from(fault.flaw),
    }
}
