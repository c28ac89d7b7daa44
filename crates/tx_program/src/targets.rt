// The files that a command makes, none of which is another file of it.
ghost use Rattle.std.specs.Prelude.{◌≡◌, ◌<◌, false, IfOk};
ghost use Rattle.tx_commands.specs.Clashes.{has_clash};
ghost use Rattle.tx_commands.specs.Files.{values_of};
ghost use Rattle.tx_commands.specs.SameFile.{is_same_file};

use crate::draft::is_open_already;
use crate::folder::Folder;
use crate::kind::{MADE, TextKind, kind_of};
use crate::stop::Stop;
use tx_commands::{Files, KnownFile, Place, clash};

/// The index of a page among the files that a command makes.
pub(crate) const PAGE: usize = 3;

/// The files that a command makes, by their names, and the files that it reads.
#[derive(Clone, Copy)]
pub(crate) struct Targets<'n> {
    read: [Option<KnownFile<'n>>; 3],
    names: [Option<&'n str>; 4],
}

/// The name of a file that is none of the other files of its command.
#[derive(Clone, Copy)]
pub(crate) struct Target<'n> {
    place: Place,
    name: &'n str,
}

impl<'n> Targets<'n> {
    /// Those of a command that has opened what it reads.
    pub(crate) fn of<F: Folder>(files: Files<'n>, folder: &F) -> Targets<'n> {
        let [first, second, third] = files.reads;
        Targets {
            read: [
                identify(Place::Read(0), first, folder),
                identify(Place::Read(1), second, folder),
                identify(Place::Read(2), third, folder),
            ],
            names: files.makes(),
        }
    }

    /// Refuses them where one would be made over another file of the command, or over another kind
    /// of text.
    pub(crate) fn require_free<F: Folder>(&self, folder: &F) -> Result<(), Stop> {
        let made = self.made(folder);
        self.require_apart(&made)?;
        for i in 0..4usize {
            if let Some(file) = made[i] {
                require_kind(file, MADE[i], folder)?;
            }
        }
        Ok(())
    }

    /// The files to be made.
    fn made<F: Folder>(&self, folder: &F) -> [Option<KnownFile<'n>>; 4] {
        let [plan, cert, script, page] = self.names;
        [
            identify_target(Place::Made(0), plan, folder),
            identify_target(Place::Made(1), cert, folder),
            identify_target(Place::Made(2), script, folder),
            identify_target(Place::Made(3), page, folder),
        ]
    }

    /// Refuses files to be made of which one is read, or is to be made by another name too.
    fn require_apart(&self, made: &[Option<KnownFile<'n>>]) -> Result<(), Stop>
        ensures { IfOk result (λ _. has_clash is_same_file
            (values_of self.now.read) (values_of made.now) ≡ false) }
    {
        match clash(&self.read, made) {
            Some((file, other)) => Err(Stop::OneFile(file, other)),
            None => Ok(()),
        }
    }

    /// Looks once more where the names lead, and refuses files to be made as before.
    pub(crate) fn require_still_apart<F: Folder>(&self, folder: &F) -> Result<(), Stop> {
        self.require_apart(&self.made(folder))
    }

    /// The name of a file to be made, if it is named, found once more to be none of the others.
    pub(crate) fn get<F: Folder>(
        &self,
        index: usize,
        folder: &F,
    ) -> Result<Option<Target<'n>>, Stop>
        requires { index < 4 }
    {
        let Some(name) = self.names[index] else {
            return Ok(None);
        };
        self.require_still_apart(folder)?;
        Ok(Some(Target {
            place: Place::Made(index),
            name,
        }))
    }
}

impl<'n> Target<'n> {
    pub(crate) fn place(self) -> Place {
        self.place
    }

    pub(crate) fn name(self) -> &'n str {
        self.name
    }
}

/// The file that is meant by a name, if it is known.
fn identify<'n, F: Folder>(
    place: Place,
    name: Option<&'n str>,
    folder: &F,
) -> Option<KnownFile<'n>> {
    let name = name?;
    let id = folder.identify(name)?;
    Some(KnownFile::new(place, name, id))
}

/// The same of a file to be made. An output of the program takes the place of no file.
fn identify_target<'n, F: Folder>(
    place: Place,
    name: Option<&'n str>,
    folder: &F,
) -> Option<KnownFile<'n>> {
    match name {
        Some(name) if is_open_already(name) => None,
        name => identify(place, name, folder),
    }
}

/// Refuses a file that is there and holds another kind of text.
fn require_kind<F: Folder>(file: KnownFile<'_>, wanted: TextKind, folder: &F) -> Result<(), Stop> {
    if !file.is_there() {
        return Ok(());
    }
    match kind_of(folder, file.name) {
        Some(held) if held != wanted => Err(Stop::OtherKind {
            file: file.place,
            held,
            wanted,
        }),
        _ => Ok(()),
    }
}
