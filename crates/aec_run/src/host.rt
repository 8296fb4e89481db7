//! The system of a runtime.
ghost use Rattle.std.specs.Prelude.{None};

use crate::counted::Counted;
use crate::destination::Sink;
use crate::finding::Finding;
use crate::help::{Help, Job};
use crate::message::Message;
use crate::progress::Progress;
use crate::same_file::{FileId, known_id};
use crate::source::Stream;
use crate::system::{CreateFault, OpenFault, System};
use clap::Error;
use rice_bits::{FromBufWriter, FromReader, WriteFault};
use std::alloc::AllocGlobal;
use std::cell::Cell;
use std::fs::{File, Files, Metadata, OpenFile};
use std::io::{BufWriter, Eprint, Printer, Write};
use std::os::unix::fs::OpenOptionsExt;
use std::rt::Runtime;
use std::{fs, io};

/// The size of the buffer in front of standard output, in bytes.
const BUFFER: usize = 1 << 16;

/// The size of the buffer in front of a file, in bytes.
const FILE_BUFFER: usize = 1 << 18;

/// The permissions that a new file gets where those of the source are not known, less those that the system withholds.
const ANY_NEW_FILE: u32 = 0o666;

/// The name of the file that standard input is.
const STANDARD_INPUT: &str = "/dev/stdin";

/// Opens a file to read. The system opens a directory too, which can't be read.
fn open_to_read<R: Files>(rt: &R, name: &str) -> io::Result<R::File> {
    let file = File::open(rt, name)?;
    match file.metadata() {
        Ok(found) if found.is_dir() => Err(io::Error::from(io::ErrorKind::IsADirectory)),
        _ => Ok(file),
    }
}

/// Creates a file with these permissions, or empties the one of this name, to write to it.
fn open_to_write<R: Files>(rt: &R, name: &str, mode: u32) -> io::Result<R::File> {
    // Where standard streams are closed, a new file takes their place, and messages would go into it. A directory, which
    // is neither read nor written, stands in for each.
    let _input = File::open(rt, "/");
    let _output = File::open(rt, "/");
    let _errors = File::open(rt, "/");
    let mut options = File::options();
    options.write(true).create(true).truncate(true).mode(mode);
    options.open(rt, name)
}

/// Returns the bytes of a regular file.
fn size_of(found: io::Result<Metadata>) -> Option<u64> {
    match found {
        Ok(found) if found.is_file() => Some(found.len()),
        _ => None,
    }
}

/// The system that a runtime reaches. It reports nothing of its files, as the runtime's contracts report nothing.
#[derive(Drop)]
pub struct Host<'a, 'r, R> {
    rt: &'r R,
    progress: &'r Progress,
    /// The current job, if help is requested and was not given yet.
    job: Cell<Option<Job<'a>>>,
}

impl<'a, 'r, R> Host<'a, 'r, R> {
    /// Returns the system of a runtime. It notes its progress.
    pub fn new(rt: &'r R, progress: &'r Progress) -> Self {
        Host {
            rt,
            progress,
            job: Cell::new(None),
        }
    }
}

impl<'a, 'r, R: Eprint> Host<'a, 'r, R> {
    fn write_help(&self, help: Option<Help<'a>>) {
        if let Some(help) = help {
            let _ = eprintln!(self.rt; "aec: {help}");
        }
    }
}

impl<'a, 'r, R: Runtime + AllocGlobal> System<'a> for Host<'a, 'r, R> {
    type Source = FromReader<Counted<'r, R, Stream<R::Reader, R::File>>>;

    type Dest = FromBufWriter<Counted<'r, R, Sink<Printer<'r, R>, R::File>>>;

    ghost reported = { λ _. None };

    fn input(&self) -> (Self::Source, Option<FileId>) {
        let id = known_id(fs::metadata(self.rt, STANDARD_INPUT));
        let input = Stream::Input(self.rt.reader());
        (
            FromReader::new(Counted::new(self.rt, self.progress, input)),
            id,
        )
    }

    fn open(&self, name: &str) -> Result<(Self::Source, Option<FileId>), OpenFault> {
        match open_to_read(self.rt, name) {
            Ok(file) => {
                let id = known_id(file.metadata());
                self.progress.expect(size_of(file.metadata()));
                let stream = Stream::File(file);
                let source = FromReader::new(Counted::new(self.rt, self.progress, stream));
                Ok((source, id))
            }
            Err(error) => {
                self.progress.note(error);
                Err(OpenFault)
            }
        }
    }

    fn reopen(&mut self, name: &'a str) -> Result<Self::Source, OpenFault> {
        let (source, _) = self.open(name)?;
        Ok(source)
    }

    fn find(&self, name: &str) -> Option<FileId> {
        known_id(fs::metadata(self.rt, name))
    }

    fn output(&mut self) -> Result<Self::Dest, CreateFault> {
        let sink = Counted::new(self.rt, self.progress, Sink::Output(io::writer(self.rt)));
        match BufWriter::with_capacity(self.rt.alloc(), BUFFER, sink) {
            Ok(writer) => Ok(FromBufWriter::new(writer)),
            Err(_) => Err(CreateFault::NoMemory),
        }
    }

    fn create(&mut self, name: &'a str, mode: Option<u32>) -> Result<Self::Dest, CreateFault> {
        let sink = Counted::new(self.rt, self.progress, Sink::Pending);
        let Ok(mut writer) = BufWriter::with_capacity(self.rt.alloc(), FILE_BUFFER, sink) else {
            return Err(CreateFault::NoMemory);
        };
        match open_to_write(self.rt, name, mode.unwrap_or(ANY_NEW_FILE)) {
            Ok(file) => {
                writer.get_mut().get_mut().set(file);
                Ok(FromBufWriter::new(writer))
            }
            Err(error) => {
                self.progress.note(error);
                Err(CreateFault::Refused)
            }
        }
    }

    fn finish(&mut self, dest: Self::Dest) -> Result<(), WriteFault> {
        match dest.into_inner().flush() {
            Ok(()) => Ok(()),
            Err(_) => Err(WriteFault),
        }
    }

    fn tell(&mut self, message: Message<'a>) {
        let _ = eprintln!(self.rt; "aec: {message}");
        if let Some(job) = self.job.take() {
            self.write_help(job.help_after(message, self.progress.reason()));
        }
    }

    fn watch(&self, job: Job<'a>) {
        self.job.set(Some(job));
        self.progress.watch(self.rt);
    }

    fn write_closing_line(&mut self, decode: bool, samples: u64) {
        self.progress.write_closing_line(self.rt, decode, samples);
        if let Some(job) = self.job.take() {
            let (read, written) = self.progress.bytes();
            self.write_help(job.help_at_end(samples, read, written));
        }
    }

    fn report(&mut self, it: Finding) -> Result<(), WriteFault> {
        match println!(self.rt; "{it}") {
            Ok(()) => Ok(()),
            Err(error) => {
                self.progress.note(error);
                Err(WriteFault)
            }
        }
    }

    fn show(&mut self, error: &Error) {
        let _ = error.print(self.rt);
    }
}
