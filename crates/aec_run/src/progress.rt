//! The progress of the command, for people who wait.

use std::cell::Cell;
use std::io;
use std::io::Eprint;
use std::time::{Clock, Instant};

/// The bytes read and written, and since when. Only lines on standard error depend on it.
#[derive(Drop)]
pub struct Progress {
    /// Whether standard error is a terminal.
    terminal: bool,
    /// When the command began, if lines are requested and the clock can be read.
    begun: Cell<Option<Instant>>,
    /// How many sources were opened. Only the bytes of the first are counted.
    sources: Cell<u64>,
    /// The bytes of the source, if it is a regular file.
    size: Cell<Option<u64>>,
    read: Cell<u64>,
    written: Cell<u64>,
    /// Why the last failed call of the system failed.
    reason: Cell<Option<io::Error>>,
    /// The second in which a line was last shown.
    shown: Cell<u64>,
}

impl Progress {
    /// Returns a progress that has shown nothing. `terminal` says whether standard error is a terminal.
    pub fn new(terminal: bool) -> Self {
        Progress {
            terminal,
            begun: Cell::new(None),
            sources: Cell::new(0),
            size: Cell::new(None),
            read: Cell::new(0),
            written: Cell::new(0),
            reason: Cell::new(None),
            shown: Cell::new(0),
        }
    }

    /// Begins to measure the time.
    pub fn watch(&self, clock: &impl Clock) {
        match Instant::now(clock) {
            Ok(now) => self.begun.set(Some(now)),
            Err(_) => {}
        }
    }

    /// Notes that a source was opened, and how many bytes it has.
    pub fn expect(&self, size: Option<u64>) {
        self.sources.set(self.sources.get().saturating_add(1));
        self.size.set(size);
    }

    /// Counts bytes that were read, and shows their number, once a second.
    pub fn count_read<R: Clock + Eprint>(&self, rt: &R, bytes: usize) {
        if self.sources.get() > 1 {
            return;
        }
        self.read.set(self.read.get().saturating_add(bytes as u64));
        if !self.terminal {
            return;
        }
        if let (Some(begun), Some(size)) = (self.begun.get(), self.size.get()) {
            self.show(rt, begun, size);
        }
    }

    /// Counts bytes that were written.
    pub fn count_written(&self, bytes: usize) {
        self.written
            .set(self.written.get().saturating_add(bytes as u64));
    }

    /// Notes why a call of the system failed.
    pub fn note(&self, reason: io::Error) {
        self.reason.set(Some(reason));
    }

    /// Returns why the last failed call failed.
    pub fn reason(&self) -> Option<io::Error> {
        self.reason.get()
    }

    /// Returns the numbers of bytes read and written.
    pub fn bytes(&self) -> (u64, u64) {
        (self.read.get(), self.written.get())
    }

    fn show<R: Clock + Eprint>(&self, rt: &R, begun: Instant, size: u64) {
        let Ok(elapsed) = begun.elapsed(rt) else {
            return;
        };
        if elapsed.as_secs() > self.shown.get() {
            self.shown.set(elapsed.as_secs());
            let read = self.read.get();
            let _ = eprint!(rt; "\raec: {read} of {size} bytes read");
        }
    }

    /// Writes the closing line.
    pub fn write_closing_line<R: Clock + Eprint>(&self, rt: &R, decode: bool, samples: u64) {
        let (read, written) = self.bytes();
        if self.shown.get() > 0 {
            let _ = eprint!(rt; "\r");
        }
        let _ = eprint!(rt; "aec: {samples} samples, {read} bytes in, {written} bytes out");
        let (plain, code) = if decode {
            (written, read)
        } else {
            (read, written)
        };
        if let Some(hundredths) = plain.saturating_mul(100).checked_div(code) {
            let _ = eprint!(rt; ", ratio {}.{:02}", hundredths / 100, hundredths % 100);
        }
        if let Some(begun) = self.begun.get() {
            if let Ok(elapsed) = begun.elapsed(rt) {
                let _ = eprint!(rt;
                    ", {}.{:03} seconds",
                    elapsed.as_secs(),
                    elapsed.subsec_millis()
                );
            }
        }
        let _ = eprintln!(rt; "");
    }
}
