//! A file that grows.
ghost use Rattle.std.specs.Prelude.{◌≡◌};

use std::fs::OpenFile;
use std::io::{ErrorKind, Read};
use std::rt::Clock;
use std::time::Duration;
use std::{io, thread};

/// How many milliseconds a file is left alone once all of it was read.
const PAUSE_MILLIS: u64 = 10;

/// A file. If it grows, its end is never reached: it is waited for more. If it gets shorter than what was read of it, a
/// read fails.
#[derive(Drop)]
pub struct Growing<'a, C: Clock, F: Read + OpenFile> {
    pub file: F,
    clock: &'a C,
    grows: bool,
    // How many bytes were read.
    given: u64,
}

impl<'a, C: Clock, F: Read + OpenFile> Growing<'a, C, F> {
    /// The file, before anything of it was read. It grows if it is a regular one.
    pub fn new(clock: &'a C, file: F) -> Growing<'a, C, F>
        ensures { result.file ≡ file }
    {
        let grows = match file.metadata() {
            Ok(metadata) => metadata.is_file(),
            Err(_) => false,
        };
        Growing {
            file,
            clock,
            grows,
            given: 0,
        }
    }

    // Whether the file is shorter now than what was read of it.
    fn has_shrunk(&self) -> io::Result<bool> {
        Ok(self.file.metadata()?.len() < self.given)
    }
}

impl<'a, C: Clock, F: Read + OpenFile> Read for Growing<'a, C, F> {
    ghost remaining = { λ s. F.remaining s.file };

    fn read(&mut self, buf: &mut [u8]) -> io::Result<usize> {
        for _ in 0..u64::MAX {
            let given = self.file.read(buf)?;
            self.given = self.given.saturating_add(given as u64);
            if given > 0 || buf.is_empty() || !self.grows {
                return Ok(given);
            }
            if self.has_shrunk()? {
                return Err(io::Error::from(ErrorKind::InvalidData));
            }
            thread::sleep(self.clock, Duration::from_millis(PAUSE_MILLIS));
        }
        Ok(0)
    }
}
