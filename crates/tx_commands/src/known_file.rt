// Files of a command that are known by their ids, and which of them are one.
ghost use Rattle.std.specs.Prelude.{◌≡◌, is_some};
ghost use Rattle.tx_commands.specs.Clashes.{is_among, has_clash};
ghost use Rattle.tx_commands.specs.Files.{values_of};
ghost use Rattle.tx_commands.specs.SameFile.{is_same_file};

use crate::place::Place;
use std::path::Path;

/// The device that a file is on, and its number there. Where no file is, it is those of the folder
/// in which one can be made.
#[derive(Clone, Copy)]
pub struct FileId {
    device: u64,
    number: u64,
    is_free: bool,
}

impl FileId {
    /// That of a file, or of a folder in which one can be made.
    pub fn new(device: u64, number: u64, is_free: bool) -> FileId {
        FileId {
            device,
            number,
            is_free,
        }
    }
}

/// A file of a command, with its id.
#[derive(Clone, Copy)]
pub struct KnownFile<'n> {
    pub place: Place,
    pub name: &'n str,
    id: FileId,
    /// Its name in its folder, where it is not there.
    free: Option<&'n str>,
}

impl<'n> KnownFile<'n> {
    /// The file at a place, which is meant by a name.
    pub fn new(place: Place, name: &'n str, id: FileId) -> KnownFile<'n> {
        let free = if id.is_free {
            Path::new(name).file_name()
        } else {
            None
        };
        KnownFile {
            place,
            name,
            id,
            free,
        }
    }

    /// Whether it is there.
    pub fn is_there(&self) -> bool {
        !self.id.is_free
    }

    /// Whether both names mean one file.
    fn is_same_file(&self, other: &KnownFile<'_>) -> bool
        ensures { result ≡ is_same_file self.now other.now }
    {
        self.id.device == other.id.device
            && self.id.number == other.id.number
            && self.free == other.free
    }
}

/// The place of the first of these files that is this one.
fn first_as(files: &[Option<KnownFile<'_>>], file: KnownFile<'_>) -> Option<Place>
    ensures { is_some result ≡ is_among is_same_file (values_of files.now) file.entry }
{
    for i in 0..files.len() {
        if let Some(other) = files[i] {
            if other.is_same_file(&file) {
                return Some(other.place);
            }
        }
    }
    None
}

/// Two places of one file: that of a file to be made, and one of a file that is read or to be made
/// too.
pub fn clash(
    read: &[Option<KnownFile<'_>>],
    made: &[Option<KnownFile<'_>>],
) -> Option<(Place, Place)>
    ensures { is_some result ≡ has_clash is_same_file (values_of read.now) (values_of made.now) }
{
    for i in 0..made.len() {
        if let Some(file) = made[i] {
            let other = first_as(read, file).or(first_as(&made[i + 1..], file));
            if let Some(other) = other {
                return Some((file.place, other));
            }
        }
    }
    None
}
