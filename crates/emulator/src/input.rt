// The host's bytes, as a reader gives them.
use std::io;
use std::io::Read;

// A reader, and why it could not be read, once a read has failed.
#[derive(Drop)]
pub struct HostInput<I> {
    pub input: I,
    pub fault: Option<io::Error>,
}

impl<I: Read> Read for HostInput<I> {
    fn read(&mut self, buf: &mut [u8]) -> io::Result<usize> {
        let got = self.input.read(buf);
        if let Err(why) = got {
            self.fault = Some(why);
        }
        got
    }
}
