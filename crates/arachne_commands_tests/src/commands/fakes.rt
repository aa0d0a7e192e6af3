//! A reader and a writer for tests, whose calls fail as a test says.
use std::alloc::{AllocError, Global};
use std::io::{self, ErrorKind, Read, Write};

#[derive(Clone, Copy, Debug)]
pub(super) struct Failure {
    pub(super) at: u64,
    /// The error that the failing call returns, or `None` if it only reads or writes no byte.
    pub(super) error: Option<ErrorKind>,
    /// True if only that one call fails, and not the later ones.
    pub(super) once: bool,
}

fn failed(failure: Option<Failure>, call: u64) -> Option<io::Result<usize>> {
    let failure = failure?;
    if call < failure.at || failure.once && call != failure.at {
        return None;
    }
    match failure.error {
        Some(kind) => Some(Err(io::Error::from(kind))),
        None => Some(Ok(0)),
    }
}

#[derive(Drop)]
pub(super) struct Script<'a> {
    pub(super) bytes: &'a [u8],
    /// The bytes that follow those in `bytes`, repeated without end; none if the slice is empty.
    pub(super) again: &'a [u8],
    pub(super) step: usize,
    pub(super) failure: Option<Failure>,
    pub(super) given: u64,
    pub(super) reads: u64,
}

impl<'a> Script<'a> {
    pub(super) fn of(bytes: &'a [u8]) -> Script<'a> {
        Script {
            bytes,
            again: b"",
            step: usize::MAX,
            failure: None,
            given: 0,
            reads: 0,
        }
    }
}

impl Read for Script<'_> {
    fn read(&mut self, buf: &mut [u8]) -> io::Result<usize> {
        self.reads = self.reads.wrapping_add(1);
        match failed(self.failure, self.reads) {
            Some(Ok(_)) => return Ok(0),
            Some(Err(error)) => return Err(error),
            None => {}
        }
        if self.bytes.is_empty() {
            self.bytes = self.again;
        }
        let room = buf.len().min(self.step);
        let count = self.bytes.read(&mut buf[..room])?;
        self.given = self.given.wrapping_add(count as u64);
        Ok(count)
    }
}

#[derive(Drop)]
pub(super) struct Tray {
    pub(super) kept: Vec<u8>,
    pub(super) step: usize,
    pub(super) failure: Option<Failure>,
    pub(super) flush_failure: Option<Failure>,
    pub(super) writes: u64,
    pub(super) flushes: u64,
    /// The number of bytes that were taken before the last flush that did not fail.
    pub(super) flushed: usize,
}

impl Tray {
    pub(super) fn new(alloc: Global) -> Tray {
        Tray {
            kept: Vec::new(alloc),
            step: usize::MAX,
            failure: None,
            flush_failure: None,
            writes: 0,
            flushes: 0,
            flushed: 0,
        }
    }

    /// Returns a writer that takes all bytes, and has memory for `room` bytes from the start.
    pub(super) fn with_room(alloc: Global, room: usize) -> Result<Tray, AllocError> {
        let mut tray = Tray::new(alloc);
        tray.kept.try_reserve(room)?;
        Ok(tray)
    }

    /// Returns true if the writer was flushed exactly once, after its last byte.
    pub(super) fn is_flushed_once(&self) -> bool {
        self.flushes == 1 && self.flushed == self.kept.len()
    }
}

impl Write for Tray {
    fn write(&mut self, buf: &[u8]) -> io::Result<usize> {
        self.writes = self.writes.wrapping_add(1);
        match failed(self.failure, self.writes) {
            Some(Ok(_)) => return Ok(0),
            Some(Err(error)) => return Err(error),
            None => {}
        }
        let count = buf.len().min(self.step);
        self.kept.extend_from_slice(&buf[..count])?;
        Ok(count)
    }

    fn flush(&mut self) -> io::Result<()> {
        self.flushes = self.flushes.wrapping_add(1);
        match failed(self.flush_failure, self.flushes) {
            Some(Err(error)) => return Err(error),
            Some(Ok(_)) => return Err(io::Error::from(ErrorKind::WriteZero)),
            None => {}
        }
        self.flushed = self.kept.len();
        Ok(())
    }
}
