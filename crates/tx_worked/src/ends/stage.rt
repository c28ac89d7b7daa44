// The ends of the program, watched.
use crate::cases::{EndCase, Log, MOMENT, Reader, Writer};
use std::fs::File;
use std::io;
use tx_program::{Draft, Ends, FileId, Folder};

/// The folder of a case, and its settings.
#[derive(Drop)]
pub(crate) struct Stage<'a> {
    pub rt: &'a HostRuntime,
    pub case: &'a EndCase<'a>,
    pub log: &'a Log,
}

/// The ends of a case.
pub(crate) type Watched<'a> = Ends<'a, Stage<'a>, Reader<'a>, Writer<'a>, Writer<'a>>;

impl<'a> Stage<'a> {
    /// The ends of the case over its input, which is open.
    pub(crate) fn ends(&'a self, input: File) -> Watched<'a> {
        Ends {
            folder: self,
            input: self.reader(input, "in"),
            output: self.writer(None, "out"),
            errors: self.writer(None, "errors"),
        }
    }

    /// The name by which an end is told. Where memory runs out for it, it is left out.
    fn told_name(&self, name: &str) -> String {
        let mut told = String::new(self.rt.alloc());
        let _ = told.push_str(name);
        told
    }

    fn reader(&self, file: File, name: &str) -> Reader<'a> {
        Reader {
            file,
            name: self.told_name(name),
            log: self.log,
            piece: self.case.piece,
            fails: self.case.failing_call(name),
            interrupted: self.case.interrupted_call(name),
            is_terminal: self.case.is_terminal,
            reads: 0,
        }
    }

    fn writer(&self, file: Option<Draft>, name: &str) -> Writer<'a> {
        Writer {
            file,
            name: self.told_name(name),
            log: self.log,
            room: self.case.room(name),
            fails: self.case.failing_call(name),
            flushes: 0,
            interrupted: self.case.interrupted_call(name),
            calls: 0,
        }
    }
}

impl<'a> Folder for Stage<'a> {
    type Input = Reader<'a>;

    type Output = Writer<'a>;

    fn identify(&self, name: &str) -> Option<FileId> {
        Folder::identify(self.rt, if name == "-" { self.case.input } else { name })
    }

    fn open(&self, name: &str) -> io::Result<Reader<'a>> {
        self.log.tell("open", name);
        match Folder::open(self.rt, name) {
            Ok(file) => Ok(self.reader(file, name)),
            Err(fault) => Err(fault),
        }
    }

    fn begin(&self, name: &str) -> io::Result<Writer<'a>> {
        self.log.tell("make", name);
        match Folder::begin(self.rt, name) {
            Ok(file) => Ok(self.writer(Some(file), name)),
            Err(fault) => Err(fault),
        }
    }

    fn finish(&self, file: Writer<'a>) -> io::Result<()> {
        let Writer { file, name, .. } = file;
        self.log.tell("finish", name.as_str());
        let Some(file) = file else {
            return Ok(());
        };
        if self.case.unfinished == Some(name.as_str()) {
            self.log.tell("fails", name.as_str());
            Folder::give_up(self.rt, file);
            return Err(io::Error::from(io::ErrorKind::Other));
        }
        Folder::finish(self.rt, file)
    }

    fn give_up(&self, file: Writer<'a>) {
        let Writer { file, name, .. } = file;
        self.log.tell("give up", name.as_str());
        if let Some(file) = file {
            Folder::give_up(self.rt, file);
        }
    }

    fn moment(&self) -> Option<u64> {
        Some(MOMENT)
    }
}
