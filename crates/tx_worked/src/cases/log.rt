// What happened, in order.
use crate::cases::told::{Told, tell};
use itoa::Buffer;
use std::alloc::Global;
use std::cell::RefCell;
use std::fmt::Debug;
use std::fs;
use std::io::Write;

/// Lines, of which the last may have no LF yet.
#[derive(Drop)]
struct Lines {
    text: Vec<u8>,
    /// Whether the last line has some bytes of a file, and no LF yet.
    is_open: bool,
}

impl Lines {
    fn put(&mut self, bytes: &[u8]) {
        let _ = self.text.extend_from_slice(bytes);
    }

    /// Ends a line that has no LF.
    fn close(&mut self) {
        if self.is_open {
            self.put(b"\\\n");
            self.is_open = false;
        }
    }

    /// Adds a line of two texts.
    fn tell(&mut self, what: &str, name: &str) {
        self.close();
        self.put(what.as_bytes());
        self.put(b" ");
        self.put(name.as_bytes());
        self.put(b"\n");
    }

    /// Goes on with the bytes of a file, whose name stands before each line.
    fn put_bytes(&mut self, name: &str, bytes: &[u8]) {
        for byte in bytes {
            if !self.is_open {
                self.put(name.as_bytes());
                self.put(b"| ");
            }
            let _ = self.text.push(*byte);
            self.is_open = *byte != b'\n';
        }
    }
}

/// Lines that tell what happened.
#[derive(Drop)]
pub struct Log {
    lines: RefCell<Lines>,
}

impl Log {
    pub fn new(alloc: Global) -> Log {
        Log {
            lines: RefCell::new(Lines {
                text: Vec::new(alloc),
                is_open: false,
            }),
        }
    }

    /// Adds a line of two texts.
    pub fn tell(&self, what: &str, name: &str) {
        if let Ok(mut lines) = self.lines.try_borrow_mut() {
            lines.tell(what, name);
        }
    }

    /// Adds a line of a text and a number.
    pub fn tell_number(&self, what: &str, number: u64) {
        self.tell(what, Buffer::new().format(number));
    }

    /// Adds a line with all of a value.
    pub fn tell_value(&self, value: &impl Debug) {
        if let Ok(mut lines) = self.lines.try_borrow_mut() {
            lines.close();
            let _ = writeln!(lines.text, "{value:?}");
        }
    }

    /// Adds the bytes that a file took, or has.
    pub fn tell_bytes(&self, name: &str, bytes: &[u8]) {
        if let Ok(mut lines) = self.lines.try_borrow_mut() {
            lines.put_bytes(name, bytes);
        }
    }

    /// Adds what a file holds.
    pub fn tell_file(&self, rt: &HostRuntime, name: &str) {
        match fs::read(rt, name) {
            Ok(bytes) => self.tell_bytes(name, bytes.as_slice()),
            Err(_) => self.tell("no file", name),
        }
    }

    /// Adds what another log tells.
    pub fn tell_all(&self, other: &Log) {
        if let Ok(mut lines) = self.lines.try_borrow_mut() {
            lines.close();
            if let Ok(other) = other.lines.try_borrow() {
                lines.put(other.text.as_slice());
            }
        }
    }

    /// Whether two logs tell the same.
    pub fn is_as(&self, other: &Log) -> bool {
        let Ok(lines) = self.lines.try_borrow() else {
            return false;
        };
        let Ok(others) = other.lines.try_borrow() else {
            return false;
        };
        lines.text.as_slice() == others.text.as_slice()
    }

    pub fn print(&self, out: &mut Told) {
        if let Ok(mut lines) = self.lines.try_borrow_mut() {
            lines.close();
            tell(lines.text.as_slice(), out);
        }
    }
}
