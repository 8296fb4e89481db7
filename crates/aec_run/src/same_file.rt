//! Compares the file that is read with that of a name, and chooses the permissions of a new file.
ghost use Rattle.std.specs.Prelude.{◌≡◌, ◌↔◌, IsTrue};
ghost use Rattle.std.specs.Fs.{IsFile, file_type};
ghost use Rattle.aec_run.specs.Outside.{AreOneFile, IsOneFile, new_mode};

use std::fs::Metadata;
use std::io;
use std::os::unix::fs::{MetadataExt, PermissionsExt};

/// The bits of a mode that say who may read, write and run a file.
const PERMISSIONS: u32 = 0o777;

/// The identity of a file: its device and its number there. Also whether it is a regular file, and its permissions.
#[derive(Clone, Copy, Debug)]
pub struct FileId {
    pub device: u64,
    pub number: u64,
    pub is_regular: bool,
    pub mode: u32,
}

/// The identity of a file, by what the system says of it.
fn id_of(found: &Metadata) -> FileId
    ensures { IsTrue result.is_regular ↔ IsFile (file_type found.now) }
{
    FileId {
        device: found.dev(),
        number: found.ino(),
        is_regular: found.is_file(),
        mode: found.permissions().mode() & PERMISSIONS,
    }
}

/// Returns the identity of a file, if the system reports it.
pub fn known_id(found: io::Result<Metadata>) -> Option<FileId> {
    match found {
        Ok(found) => Some(id_of(&found)),
        Err(_) => None,
    }
}

/// Whether both are one regular file. Writing to anything else, such as a device, empties nothing.
fn is_one_file(source: FileId, dest: FileId) -> bool
    ensures { IsTrue result ↔ IsOneFile source dest }
{
    source.device == dest.device
        && source.number == dest.number
        && source.is_regular
        && dest.is_regular
}

/// Returns whether both are known, and are the same regular file.
pub fn are_one_file(source: Option<FileId>, dest: Option<FileId>) -> bool
    ensures { IsTrue result ↔ AreOneFile source dest }
{
    match (source, dest) {
        (Some(source), Some(dest)) => is_one_file(source, dest),
        _ => false,
    }
}

/// Returns the permissions of a new file: those of the source, or none if it is no regular file.
pub fn mode_for(source: Option<FileId>) -> Option<u32>
    ensures { result ≡ new_mode source }
{
    match source {
        Some(source) => {
            if source.is_regular {
                Some(source.mode)
            } else {
                None
            }
        }
        None => None,
    }
}
