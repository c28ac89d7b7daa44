// The ends of a command. Input and output are buffered, and the output goes out before the program
// waits for input.
use std::alloc::Allocator;
use std::cell::RefCell;
use std::io;
use std::io::{BufReader, BufWriter, Read, Write};
use tx_jobs::JobFault;
use tx_text::{FromRead, Sink, WriteFault};

/// How many bytes an output holds, and how many are read of an input at a time.
const ROOM: usize = 65_536;

/// A writer whose failure stays. One that takes nothing has failed; an interrupted call may be
/// tried again.
#[derive(Drop)]
struct Steady<W: Write + Drop> {
    writer: W,
    failed: bool,
    /// Why it failed, until that is taken out.
    failure: Option<io::Error>,
}

impl<W: Write + Drop> Steady<W> {
    /// Keeps the error of a call, unless it was interrupted, and answers one of its kind.
    fn keep(&mut self, error: io::Error) -> io::Error {
        let kind = error.kind();
        if kind != io::ErrorKind::Interrupted {
            self.failed = true;
            self.failure = Some(error);
        }
        io::Error::from(kind)
    }
}

impl<W: Write + Drop> Write for Steady<W> {
    fn write(&mut self, bytes: &[u8]) -> io::Result<usize> {
        if self.failed {
            return Err(io::Error::from(io::ErrorKind::Other));
        }
        match self.writer.write(bytes) {
            Ok(0) => Err(self.keep(io::Error::from(io::ErrorKind::WriteZero))),
            Ok(n) => Ok(n),
            Err(e) => Err(self.keep(e)),
        }
    }

    fn flush(&mut self) -> io::Result<()> {
        if self.failed {
            return Err(io::Error::from(io::ErrorKind::Other));
        }
        match self.writer.flush() {
            Ok(()) => Ok(()),
            Err(e) => Err(self.keep(e)),
        }
    }
}

/// A read that failed: which of the inputs, from 0, and what the system said.
pub(crate) type FailedRead = (usize, io::Error);

/// An output, which a sink writes to and a source lets out.
#[derive(Drop)]
pub(crate) struct Output<W: Write + Drop, A: Allocator> {
    writer: RefCell<BufWriter<Steady<W>, A>>,
    /// The first read that failed of a source over it.
    failed_read: RefCell<Option<FailedRead>>,
}

impl<W: Write + Drop, A: Allocator> Output<W, A> {
    pub(crate) fn new(alloc: A, writer: W) -> Result<Output<W, A>, JobFault> {
        let steady = Steady {
            writer,
            failed: false,
            failure: None,
        };
        let writer = BufWriter::with_capacity(alloc, ROOM, steady).or(Err(JobFault::NoMemory))?;
        Ok(Output {
            writer: RefCell::new(writer),
            failed_read: RefCell::new(None),
        })
    }

    /// Takes out why it failed, if it has.
    pub(crate) fn take_failure(&self) -> Option<io::Error> {
        match self.writer.try_borrow_mut() {
            Ok(mut writer) => writer.get_mut().failure.take(),
            Err(_) => None,
        }
    }

    /// Takes out the first read that failed of a source over it.
    pub(crate) fn take_failed_read(&self) -> Option<FailedRead> {
        match self.failed_read.try_borrow_mut() {
            Ok(mut failed) => failed.take(),
            Err(_) => None,
        }
    }

    /// Keeps why a read of an input failed, if it is the first one, and answers an error of its
    /// kind.
    fn keep_failed_read(&self, index: usize, error: io::Error) -> io::Error {
        let kind = error.kind();
        if let Ok(mut failed) = self.failed_read.try_borrow_mut() {
            if failed.is_none() {
                *failed = Some((index, error));
            }
        }
        io::Error::from(kind)
    }

    /// Lets out what was written.
    pub(crate) fn let_out(&self) -> Result<(), JobFault> {
        self.flush().or(Err(JobFault::Write))
    }

    fn flush(&self) -> io::Result<()> {
        match self.writer.try_borrow_mut() {
            Ok(mut writer) => writer.flush(),
            Err(_) => Err(io::Error::from(io::ErrorKind::Other)),
        }
    }

    pub(crate) fn sink(&self) -> OutputSink<'_, W, A> {
        OutputSink {
            output: self,
            failed: false,
        }
    }

    /// A source over one of the inputs, before each of whose reads the output goes out. An output
    /// that fails then is a failure of the source too: the program reports it as the output's.
    /// Without a reader the source has no bytes.
    pub(crate) fn source<R: Read + Drop>(
        &self,
        alloc: A,
        index: usize,
        reader: Option<R>,
    ) -> Result<FromRead<Flushing<'_, R, W, A>>, JobFault> {
        let reader = match reader {
            Some(reader) => match BufReader::with_capacity(alloc, ROOM, reader) {
                Ok(reader) => Some(reader),
                Err(_) => return Err(JobFault::NoMemory),
            },
            None => None,
        };
        Ok(FromRead::new(Flushing {
            reader,
            index,
            output: self,
        }))
    }
}

/// An output as a sink, which does not show its bytes. A call takes all its bytes or fails, and a
/// failure stays one.
#[derive(Drop)]
pub(crate) struct OutputSink<'a, W: Write + Drop, A: Allocator> {
    output: &'a Output<W, A>,
    failed: bool,
}

impl<'a, W: Write + Drop, A: Allocator> Sink for OutputSink<'a, W, A> {
    ghost use Rattle.std.specs.Prelude.{None};

    ghost taken = { λ _. None };

    ghost failed = { λ s. s.failed };

    ghost called = { λ _ _ _ _. Unit {0} };

    fn write(&mut self, bytes: &[u8]) -> Result<usize, WriteFault> {
        if !self.failed {
            if let Ok(mut writer) = self.output.writer.try_borrow_mut() {
                if writer.write_all(bytes).is_ok() {
                    return Ok(bytes.len());
                }
            }
        }
        self.failed = true;
        Err(WriteFault)
    }

    fn has_failed(&self) -> bool {
        self.failed
    }
}

/// A reader before each of whose reads an output goes out. What it has read ahead it gives without
/// one.
pub(crate) struct Flushing<'a, R: Read + Drop, W: Write + Drop, A: Allocator> {
    reader: Option<BufReader<R, A>>,
    /// Which of the inputs it is.
    index: usize,
    output: &'a Output<W, A>,
}

impl<R: Read + Drop, W: Write + Drop, A: Allocator> Drop for Flushing<'_, R, W, A> {
    fn drop(self) {
        let Self {
            reader,
            index: _,
            output: _,
        } = self;
        drop(reader);
    }
}

impl<'a, R: Read + Drop, W: Write + Drop, A: Allocator> Read for Flushing<'a, R, W, A> {
    fn read(&mut self, buf: &mut [u8]) -> io::Result<usize> {
        match &mut self.reader {
            Some(reader) => {
                if reader.buffer().is_empty() {
                    self.output.flush()?;
                }
                match reader.read(buf) {
                    Ok(n) => Ok(n),
                    Err(e) => Err(self.output.keep_failed_read(self.index, e)),
                }
            }
            None => Ok(0),
        }
    }
}
