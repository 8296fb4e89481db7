//! Destinations: standard output, or a file that is created after its buffer.
use std::io;
use std::io::{ErrorKind, Write};

/// Standard output, a file, or the place for a file, which takes no bytes.
#[derive(Drop)]
pub enum Sink<O, F> {
    Pending,
    Output(O),
    File(F),
}

impl<O: Drop, F: Drop> Sink<O, F> {
    /// Makes `file` the destination.
    pub fn set(&mut self, file: F) {
        *self = Sink::File(file);
    }
}

impl<O: Write, F: Write> Write for Sink<O, F> {
    ghost use Rattle.aec_run.specs.Streams.{sink_contents};

    ghost contents = { sink_contents O.contents F.contents };

    fn write(&mut self, buf: &[u8]) -> io::Result<usize> {
        match self {
            Sink::Pending => Err(io::Error::from(ErrorKind::NotFound)),
            Sink::Output(output) => output.write(buf),
            Sink::File(file) => file.write(buf),
        }
    }

    fn flush(&mut self) -> io::Result<()> {
        match self {
            Sink::Pending => Ok(()),
            Sink::Output(output) => output.flush(),
            Sink::File(file) => file.flush(),
        }
    }
}
