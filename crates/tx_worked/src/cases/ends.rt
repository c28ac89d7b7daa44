// What a job or a run is given beside its texts.
use tx_text::{MemorySource, Source};

/// Room enough for what any job of the cases writes that is tried more than once.
pub const ROOM: usize = 4_000_000;

/// Room enough for what any job of the cases writes.
pub const FULL_ROOM: usize = 100_000_000;

/// What a task or a run is given: how many bytes a call of a source gives, the source, by its index,
/// and its call that fails, the request for memory that is refused, or 0 for none, and the room for
/// what is written.
#[derive(Clone, Copy)]
pub struct Ends {
    pub piece: usize,
    pub fails: Option<(usize, u64)>,
    pub refused: u64,
    pub room: usize,
}

impl Ends {
    /// Sources that never fail, and room enough.
    pub fn pieces(piece: usize) -> Ends {
        Ends {
            piece,
            fails: None,
            refused: 0,
            room: ROOM,
        }
    }

    /// Sources of one byte a call of which one fails at a call.
    pub fn failing(index: usize, call: u64) -> Ends {
        Ends {
            fails: Some((index, call)),
            ..Ends::pieces(1)
        }
    }

    /// Sources that never fail, and a request for memory that is refused.
    pub fn refusing(refused: u64) -> Ends {
        Ends {
            refused,
            ..Ends::pieces(4096)
        }
    }

    /// Sources that never fail, and so much room.
    pub fn with_room(room: usize) -> Ends {
        Ends {
            room,
            ..Ends::pieces(4096)
        }
    }

    /// A source over the text of an index.
    pub fn source<'a>(&self, index: usize, text: &'a [u8]) -> MemorySource<'a> {
        let fails_at = match self.fails {
            Some((failing, call)) if failing == index => Some(call),
            _ => None,
        };
        MemorySource::new(text, self.piece.max(1), fails_at)
    }
}

/// How many of the first thousand calls of a source are left, where the next one fails.
pub fn calls_left(source: &mut MemorySource<'_>) -> u64 {
    let mut left = 0u64;
    for _ in 0..1000u32 {
        if source.read(&mut [0]).is_err() {
            break;
        }
        left = left.saturating_add(1);
    }
    left
}
