//! Streams that may fail.

use std::alloc::Global;
use std::fs::File;
use std::io;
use std::io::{ErrorKind, Read, Write};

/// A file. A broken one fails behind its last byte, where it should end.
#[derive(Drop)]
pub struct Input {
    file: File,
    is_broken: bool,
}

impl Input {
    pub fn new(file: File, is_broken: bool) -> Self {
        Input { file, is_broken }
    }
}

impl Read for Input {
    fn read(&mut self, buf: &mut [u8]) -> io::Result<usize> {
        let read = self.file.read(buf)?;
        if self.is_broken && read == 0 {
            return Err(io::Error::from(ErrorKind::Other));
        }
        Ok(read)
    }
}

/// An output that holds what it takes. A closed one takes nothing.
#[derive(Drop)]
pub struct Output {
    bytes: Vec<u8>,
    is_closed: bool,
}

impl Output {
    pub fn new(alloc: Global, is_closed: bool) -> Self {
        Output {
            bytes: Vec::new(alloc),
            is_closed,
        }
    }

    pub fn bytes(&self) -> &[u8] {
        self.bytes.as_slice()
    }
}

impl Write for Output {
    fn write(&mut self, buf: &[u8]) -> io::Result<usize> {
        if self.is_closed {
            return Err(io::Error::from(ErrorKind::BrokenPipe));
        }
        self.bytes.write(buf)
    }

    fn flush(&mut self) -> io::Result<()> {
        Ok(())
    }
}
