//! Calls of the system that move a byte at a time, and fail after some of them, by a file of this crate.

use mx_host::{HostFault, Mode};
use mx_real::{Stream, read, write};
use std::io;
use std::io::{ErrorKind, Read, Seek, SeekFrom, Write};

/// A file whose first call is interrupted, and whose others move one byte, up to the place where they fail.
#[derive(Drop)]
struct Fake {
    place: u64,
    fails_at: u64,
    interrupted: bool,
}

impl Fake {
    /// A file whose place is 1.
    fn new(fails_at: u64) -> Fake {
        Fake {
            place: 1,
            fails_at,
            interrupted: false,
        }
    }

    /// Moves the place over a byte, where the call does not fail.
    fn step(&mut self) -> io::Result<()> {
        if !self.interrupted {
            self.interrupted = true;
            return Err(io::Error::from(ErrorKind::Interrupted));
        }
        if self.place >= self.fails_at {
            return Err(io::Error::from(ErrorKind::Other));
        }
        self.place = self.place.saturating_add(1);
        Ok(())
    }
}

impl Read for Fake {
    fn read(&mut self, buf: &mut [u8]) -> io::Result<usize> {
        self.step()?;
        match buf.first_mut() {
            Some(first) => {
                *first = b'r';
                Ok(1)
            }
            None => Ok(0),
        }
    }
}

impl Write for Fake {
    fn write(&mut self, buf: &[u8]) -> io::Result<usize> {
        self.step()?;
        Ok(buf.len().min(1))
    }

    fn flush(&mut self) -> io::Result<()> {
        Ok(())
    }
}

impl Seek for Fake {
    fn seek(&mut self, to: SeekFrom) -> io::Result<u64> {
        if let SeekFrom::Current(offset) = to {
            self.place = self.place.wrapping_add_signed(offset);
        }
        Ok(self.place)
    }
}

/// The place of a file; 0 where a stream is none.
fn place_of(stream: &Stream<Fake>) -> u64 {
    match stream {
        Stream::File(file, _) => file.place,
        _ => 0,
    }
}

/// What a read of four bytes answers, and the place after it.
fn read_of(fails_at: u64) -> (Result<usize, HostFault>, u64) {
    let mut stream = Stream::File(Fake::new(fails_at), Mode::BinaryRead);
    let mut into = *b"....";
    let result = read(&mut io::empty(), &mut stream, &mut into);
    (result, place_of(&stream))
}

/// What a write of four bytes answers, and the place after it.
fn write_of(fails_at: u64) -> (Result<(), HostFault>, u64) {
    let mut stream = Stream::File(Fake::new(fails_at), Mode::BinaryWrite);
    let result = write(&mut io::sink(), &mut io::sink(), &mut stream, b"abcd");
    (result, place_of(&stream))
}

#[test]
fn bytes_are_moved_one_after_another(rt: HostRuntime) {
    assert_eq!(rt; (read_of(9), write_of(9)), ((Ok(4), 5), (Ok(()), 5)));
}

#[test]
fn a_failed_call_moves_the_place_back(rt: HostRuntime) {
    let failed = HostFault::Failed;
    assert_eq!(rt;
        (read_of(4), write_of(4)),
        ((Err(failed), 1), (Err(failed), 1))
    );
}
