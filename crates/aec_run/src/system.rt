//! The system that the command runs on.
ghost use Rattle.std.specs.Prelude.{◌≡◌, true, Option, Some, None, IfOk};
ghost use Rattle.clap.specs.Words.{kind_of};
ghost use Rattle.rice_bits.specs.OutletRoom.{Room};

use crate::finding::Finding;
use crate::help::Job;
use crate::message::Message;
use crate::same_file::FileId;
use clap::Error;
use rice_bits::{Intake, Outlet, WriteFault};

/// A file can't be opened.
#[derive(Clone, Copy, Debug)]
pub struct OpenFault;

/// Why there is no destination.
#[derive(Clone, Copy, Debug)]
pub enum CreateFault {
    /// There is no memory for the buffer of the destination. No file was touched.
    NoMemory,
    /// The file can't be created.
    Refused,
}

/// The files and streams of a system. Contracts see them if the system reports them.
pub trait System<'a> {
    ghost use Rattle.aec_run.specs.Outside.{Outside, StandardOutput, Named, Untouched, Opens, Reopens, Creates, Finishes, Tells, closing, saying, showing, said_of};

    type Source: Intake + Drop;

    type Dest: Outlet;

    // The files and streams, if the system reports them. A system that reports nothing continues to report nothing.
    ghost reported: { Self → Option Outside };

    /// Returns standard input, and its file's identity, if the system knows it.
    fn input(&self) -> (Self::Source, Option<FileId>)
        ensures sound { Self.Source.failed result.0 ≡ 0 }
        ensures bytes { (o : Outside) → reported self.now ≡ Some o →
            Self.Source.left result.0 ≡ Some o.input }
        ensures id { (o : Outside) → reported self.now ≡ Some o → result.1 ≡ o.input_id };

    /// Opens a file to read, and returns it with its identity, if the system knows it.
    fn open(&self, name: &str) -> Result<(Self::Source, Option<FileId>), OpenFault>
        ensures sound { IfOk result (λ r. Self.Source.failed r.0 ≡ 0) }
        ensures opens { (o : Outside) → reported self.now ≡ Some o →
            Opens Self.Source.left (o.files name.now) (o.ids name.now) result };

    /// Opens a file once more, to read the same bytes again. The file may be gone.
    fn reopen(&mut self, name: &'a str) -> Result<Self::Source, OpenFault>
        ensures sound { IfOk result (λ source. Self.Source.failed source ≡ 0) }
        ensures silent { reported self.old ≡ None → reported self.new ≡ None }
        ensures reopens { (o : Outside) → reported self.old ≡ Some o →
            Reopens Self.Source.left name.entry.now o (reported self.new) result };

    /// Returns the identity of the file of a name, if the system knows it.
    fn find(&self, name: &str) -> Option<FileId>
        ensures { (o : Outside) → reported self.now ≡ Some o → result ≡ o.ids name.now };

    /// Begins to write to standard output, if there is memory.
    fn output(&mut self) -> Result<Self::Dest, CreateFault>
        requires { (o : Outside) → reported self.old ≡ Some o → o.destination ≡ Untouched }
        ensures sound { IfOk result (λ d. Self.Dest.failed d ≡ 0) }
        ensures silent { reported self.old ≡ None → reported self.new ≡ None }
        ensures creates { (o : Outside) → reported self.old ≡ Some o →
            Creates Self.Dest.taken StandardOutput true o (reported self.new) result };

    /// Creates a file, or empties the one of this name, to write to it. It touches a file only if there is memory. A new file gets these
    /// permissions, or those of all new files, less those that the system withholds.
    fn create(&mut self, name: &'a str, mode: Option<u32>) -> Result<Self::Dest, CreateFault>
        requires { (o : Outside) → reported self.old ≡ Some o → o.destination ≡ Untouched }
        ensures sound { IfOk result (λ d. Self.Dest.failed d ≡ 0) }
        ensures silent { reported self.old ≡ None → reported self.new ≡ None }
        ensures creates { (o : Outside) → reported self.old ≡ Some o →
            Creates Self.Dest.taken (Named name.entry.now mode) (o.creatable name.entry.now) o
            (reported self.new) result };

    /// Ends writing. Returns `Err` if not all bytes that the destination took have arrived.
    fn finish(&mut self, dest: Self::Dest) -> Result<(), WriteFault>
        ensures silent { reported self.old ≡ None → reported self.new ≡ None }
        ensures finishes { (o : Outside) (room : Room) → reported self.old ≡ Some o →
            Self.Dest.taken dest ≡ Some room →
            Finishes room.bytes o (reported self.new) result };

    /// Writes a message to standard error, as a line that begins with `aec: `. It ignores failures.
    fn tell(&mut self, message: Message<'a>)
        requires { (o : Outside) → reported self.old ≡ Some o → o.said ≡ None }
        ensures silent { reported self.old ≡ None → reported self.new ≡ None }
        ensures says { (o : Outside) → reported self.old ≡ Some o →
            reported self.new ≡ Some (saying o (said_of message.entry)) };

    /// Lets the system show the progress of a job on a terminal, and write a line of help after a message and at the end.
    fn watch(&self, job: Job<'a>);

    /// Writes the closing line to standard error: the samples, the bytes in and out, the ratio of the samples' bytes to the code's, and the
    /// time. `decode` says that the bytes read are the code. It ignores failures.
    fn write_closing_line(&mut self, decode: bool, samples: u64)
        ensures silent { reported self.old ≡ None → reported self.new ≡ None }
        ensures closes { (o : Outside) → reported self.old ≡ Some o →
            reported self.new ≡ Some (closing true decode samples o) };

    /// Writes the finding of a test to standard output, as a line.
    fn report(&mut self, it: Finding) -> Result<(), WriteFault>
        requires { (o : Outside) → reported self.old ≡ Some o → o.found ≡ None }
        ensures silent { reported self.old ≡ None → reported self.new ≡ None }
        ensures tells { (o : Outside) → reported self.old ≡ Some o →
            Tells it o (reported self.new) result };

    /// Writes the text of the parser of the command line: help and version to standard output, mistakes to standard error.
    fn show(&mut self, error: &Error)
        requires { (o : Outside) → reported self.old ≡ Some o → o.shown ≡ None }
        ensures silent { reported self.old ≡ None → reported self.new ≡ None }
        ensures shows { (o : Outside) → reported self.old ≡ Some o →
            reported self.new ≡ Some (showing o (kind_of error.now)) };
}
