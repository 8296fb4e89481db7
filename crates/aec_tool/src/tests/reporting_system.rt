//! A system in memory that reports its whole contents.
ghost use Rattle.std.specs.Prelude.{◌≡◌, None, Some, true, if◌then◌else◌, not, option_map};
ghost use Rattle.std.specs.Str.{bytes_eq};
ghost use Rattle.rice_bits.specs.OutletRoom.{known};

use aec_run::finding::Finding;
use aec_run::help::Job;
use aec_run::message::Message;
use aec_run::same_file::FileId;
use aec_run::system::{CreateFault, OpenFault, System};
use clap::Error;
use clap::error::ErrorKind;
use rice_bits::{Outlet, SliceIn, WriteFault};
use std::alloc::Global;

// The one file that can be opened.
const ID: FileId = FileId {
    device: 1,
    number: 1,
    is_regular: true,
    mode: 0o600,
};

// A destination: the bytes that it took.
#[derive(Drop)]
pub struct Taken {
    bytes: Vec<u8>,
    failures: u64,
}

impl Outlet for Taken {
    ghost taken = { λ s. known (Some s.bytes.items) };

    ghost failed = { λ s. s.failures };

    fn put(&mut self, bytes: &[u8]) -> Result<usize, WriteFault> {
        match self.bytes.extend_from_slice(bytes) {
            Ok(()) => Ok(bytes.len()),
            Err(_) => {
                self.failures += 1;
                Err(WriteFault)
            }
        }
    }

    fn failures(&self) -> u64 {
        self.failures
    }
}

// Standard input, one file that can be opened, and a name that can't be created; and what was done with them: the place that
// was begun, with no name where it is standard output, the bytes that stand there, and what was said and shown.
#[derive(Drop)]
pub struct Reported<'a> {
    alloc: Global,
    input: &'a [u8],
    name: &'a str,
    file: &'a [u8],
    locked: &'a str,
    pub place: Option<Option<(&'a str, Option<u32>)>>,
    pub held: Option<Vec<u8>>,
    pub said: Option<Message<'a>>,
    pub shown: Option<ErrorKind>,
    pub found: Option<Finding>,
    pub closed: Option<(bool, u64)>,
    // The name that could not be opened once more.
    pub missed: Option<&'a str>,
}

impl<'a> Reported<'a> {
    pub fn new(
        alloc: Global,
        input: &'a [u8],
        name: &'a str,
        file: &'a [u8],
        locked: &'a str,
    ) -> Self
        ensures place { result.place ≡ None }
        ensures said { result.said ≡ None }
        ensures shown { result.shown ≡ None }
        ensures found { result.found ≡ None }
        ensures missed { result.missed ≡ None }
    {
        Reported {
            alloc,
            input,
            name,
            file,
            locked,
            place: None,
            held: None,
            said: None,
            shown: None,
            found: None,
            closed: None,
            missed: None,
        }
    }
}

impl<'a> System<'a> for Reported<'a> {
    ghost use Rattle.aec_run.specs.Outside.{destination_of, said_of};

    type Source = SliceIn<'a>;

    type Dest = Taken;

    ghost reported = { λ s. Some (record {
      input = s.input.now;
      input_id = None;
      files = λ name. if bytes_eq name s.name.now then Some s.file.now else None;
      ids = λ name. if bytes_eq name s.name.now then Some (record { device = 1; number = 1; is_regular = true; mode = 0o600 }) else None;
      creatable = λ name. not (bytes_eq name s.locked.now);
      destination = destination_of (option_map (option_map (λ named. (named.0.now, named.1))) s.place) (option_map (λ v. v.items) s.held);
      said = option_map said_of s.said;
      shown = s.shown;
      found = s.found;
      closed = s.closed;
      losses = 0;
      refusals = 0;
      missed = option_map (λ name. name.now) s.missed;
    }) };

    fn input(&self) -> (SliceIn<'a>, Option<FileId>) {
        (SliceIn::new(self.input), None)
    }

    fn open(&self, name: &str) -> Result<(SliceIn<'a>, Option<FileId>), OpenFault> {
        if name == self.name {
            return Ok((SliceIn::new(self.file), Some(ID)));
        }
        Err(OpenFault)
    }

    fn reopen(&mut self, name: &'a str) -> Result<SliceIn<'a>, OpenFault> {
        if name == self.name {
            return Ok(SliceIn::new(self.file));
        }
        self.missed = Some(name);
        Err(OpenFault)
    }

    fn find(&self, name: &str) -> Option<FileId> {
        if name == self.name {
            return Some(ID);
        }
        None
    }

    fn output(&mut self) -> Result<Taken, CreateFault> {
        self.place = Some(None);
        self.held = None;
        Ok(Taken {
            bytes: Vec::new(self.alloc),
            failures: 0,
        })
    }

    fn create(&mut self, name: &'a str, mode: Option<u32>) -> Result<Taken, CreateFault> {
        if name == self.locked {
            return Err(CreateFault::Refused);
        }
        self.place = Some(Some((name, mode)));
        self.held = None;
        Ok(Taken {
            bytes: Vec::new(self.alloc),
            failures: 0,
        })
    }

    fn finish(&mut self, dest: Taken) -> Result<(), WriteFault> {
        self.held = Some(dest.bytes);
        Ok(())
    }

    fn tell(&mut self, message: Message<'a>) {
        self.said = Some(message);
    }

    fn watch(&self, _job: Job<'a>) {}

    fn write_closing_line(&mut self, decode: bool, samples: u64) {
        self.closed = Some((decode, samples));
    }

    fn report(&mut self, it: Finding) -> Result<(), WriteFault> {
        self.found = Some(it);
        Ok(())
    }

    fn show(&mut self, error: &Error) {
        self.shown = Some(error.kind());
    }
}
