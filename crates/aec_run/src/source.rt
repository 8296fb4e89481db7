//! Sources: standard input or a file.
use std::io;
use std::io::Read;

/// Standard input, or a file.
#[derive(Drop)]
pub enum Stream<I, F> {
    Input(I),
    File(F),
}

impl<I: Read, F: Read> Read for Stream<I, F> {
    ghost use Rattle.aec_run.specs.Streams.{stream_remaining};

    ghost remaining = { stream_remaining I.remaining F.remaining };

    fn read(&mut self, buf: &mut [u8]) -> io::Result<usize> {
        match self {
            Stream::Input(input) => input.read(buf),
            Stream::File(file) => file.read(buf),
        }
    }
}
