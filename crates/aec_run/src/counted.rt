//! A reader or a writer that counts its bytes.

use crate::progress::Progress;
use std::io;
use std::io::{Eprint, Read, Write};
use std::time::Clock;

/// A reader or a writer that counts its bytes.
#[derive(Drop)]
pub struct Counted<'r, R, T> {
    rt: &'r R,
    progress: &'r Progress,
    inner: T,
}

impl<'r, R, T: Drop> Counted<'r, R, T> {
    /// Returns a reader or a writer that has counted nothing.
    pub fn new(rt: &'r R, progress: &'r Progress, inner: T) -> Self {
        Counted {
            rt,
            progress,
            inner,
        }
    }

    /// Returns the reader or the writer.
    pub fn get_mut(&mut self) -> &mut T {
        &mut self.inner
    }
}

impl<R: Clock + Eprint, T: Read> Read for Counted<'_, R, T> {
    ghost remaining = { λ s. T.remaining s.inner };

    fn read(&mut self, buf: &mut [u8]) -> io::Result<usize> {
        match self.inner.read(buf) {
            Ok(count) => {
                self.progress.count_read(self.rt, count);
                Ok(count)
            }
            Err(error) => {
                self.progress.note(error);
                Err(error)
            }
        }
    }
}

impl<R, T: Write> Write for Counted<'_, R, T> {
    ghost contents = { λ s. T.contents s.inner };

    fn write(&mut self, buf: &[u8]) -> io::Result<usize> {
        match self.inner.write(buf) {
            Ok(count) => {
                self.progress.count_written(count);
                Ok(count)
            }
            Err(error) => {
                self.progress.note(error);
                Err(error)
            }
        }
    }

    fn flush(&mut self) -> io::Result<()> {
        self.inner.flush()
    }
}
