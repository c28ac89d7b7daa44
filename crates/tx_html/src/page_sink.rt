// Where pages are written.
ghost use Rattle.std.specs.Prelude.{◌≡◌, [], is_err};
ghost use Rattle.std.specs.List.{flat_map};
ghost use Rattle.tx_html.specs.Shows.{Sets, Seen, seen_by, part_texts};

use crate::part::{Part, set_part};
use crate::path::{Path, set_data};
use tx_text::{Sink, WriteFault};

/// Where a page is written. What the page shows comes to it as a `Part::Text`, a `Part::Count`
/// or a `Part::Amount` alone, and whoever writes to any such sink has no other way.
pub trait PageSink {
    /// What it has taken.
    ghost seen: { Self → Seen };

    /// Sets parts of a page, one after another. Whoever sets a page call by call goes on after a
    /// failure.
    fn set(&mut self, parts: &[Part<'_>])
        ensures { Sets seen self.old self.new (flat_map part_texts parts.now) };

    /// Sets where a path goes, in the tag that it begins.
    fn set_path<P: Path>(&mut self, path: &P)
        ensures { Sets seen self.old self.new [] };

    /// Tells whether it failed under what was set.
    fn finish(&self) -> Result<(), WriteFault>
        ensures { (seen self.now).failed ≡ is_err result };
}

/// A sink of bytes keeps no list of the texts.
impl<W: Sink> PageSink for W {
    ghost seen = { seen_by W.taken W.failed };

    fn set(&mut self, parts: &[Part<'_>]) {
        for i in 0..parts.len() {
            set_part(parts[i], self);
        }
    }

    fn set_path<P: Path>(&mut self, path: &P) {
        set_data(path, self);
    }

    fn finish(&self) -> Result<(), WriteFault> {
        tx_text::finish(self)
    }
}

/// Sets parts of a page, one after another.
pub fn set<W: PageSink>(parts: &[Part<'_>], sink: &mut W)
    ensures { Sets W.seen sink.old sink.new (flat_map part_texts parts.now) }
{
    sink.set(parts);
}
