// What is wrong with the bytes of a line.
ghost use Rattle.std.specs.Prelude.{◌≡◌};
ghost use Rattle.tx_text.specs.Rows.{text_row};

/// The faults of lines. Of several of one line the first that is named here is reported.
#[derive(Clone, Copy, PartialEq, Eq)]
pub enum TextFault {
    /// X1: a line has more than 512 bytes.
    LineTooLong,
    /// X2: a line has a byte that is no tab and not from 0x20 to 0x7E.
    BadByte,
    /// X3: no memory was left for a line's buffer.
    NoMemory,
}

impl TextFault {
    /// The code and the name of a fault, as `X2` and `BadByte`. They are the same in every text.
    pub fn code_and_name(self) -> (&'static [u8], &'static [u8])
        ensures { (result.0.now, result.1.now) ≡ text_row self }
    {
        match self {
            TextFault::LineTooLong => (b"X1", b"LineTooLong"),
            TextFault::BadByte => (b"X2", b"BadByte"),
            TextFault::NoMemory => (b"X3", b"NoMemory"),
        }
    }
}
