// A read and a write that fail in mid-stream.
use super::*;
use std::io;
use std::io::ErrorKind;

// The header of version 1, order 2 and levels 2, a push of 5/50, and three bytes of a pop.
const TRACE: &[u8] = b"PFT\x01\x00\x02\x02\x01\x05\x00\x00\x00\x32\x00\x00\x00\x02\x00\x00";

// Gives its bytes, and then fails.
#[derive(Drop)]
struct Cut<'a> {
    left: &'a [u8],
}

impl Read for Cut<'_> {
    fn read(&mut self, buf: &mut [u8]) -> io::Result<usize> {
        if self.left.is_empty() {
            return Err(io::Error::from(ErrorKind::Other));
        }
        self.left.read(buf)
    }
}

// Takes nothing.
#[derive(Drop)]
struct Full;

impl Write for Full {
    fn write(&mut self, _buf: &[u8]) -> io::Result<usize> {
        Err(io::Error::from(ErrorKind::StorageFull))
    }

    fn flush(&mut self) -> io::Result<()> {
        Ok(())
    }
}

#[test]
fn a_read_that_fails_is_no_end(rt: HostRuntime) {
    let mut text: Vec<u8> = Vec::new(rt.alloc());
    let played = play_input(&mut Cut { left: TRACE }, &mut text);
    assert!(rt; matches!(played, Err(Fault::Read)));
    assert!(rt; text.is_empty());
}

#[test]
fn a_write_that_fails_is_told(rt: HostRuntime) {
    let played = play_input(&mut &TRACE[..], &mut Full);
    assert!(rt; matches!(played, Err(Fault::Write)));
}
