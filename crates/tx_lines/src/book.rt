// The book of subscribers' lines, and what is known of a line.
ghost use Rattle.std.specs.Prelude.{◌≡◌, ℕ, ◌+◌, ◌<◌, ◌≤◌, true, false, if◌then◌else◌, List, Some, None, is_some, OnOk, IfOk, IsOk};
ghost use Rattle.std.specs.FinSet as set;
ghost use Rattle.indexmap.specs.IndexMap.{Updates, get, spare};
ghost use Rattle.tx_plan.specs.Lines.{is_line_at};
ghost use Rattle.tx_plan.specs.Orders.{same_line};
ghost use Rattle.tx_plan.specs.declared.ids.Line.{Line};
ghost use Rattle.tx_lines.specs.declared.book.Status.{Status};
ghost use Rattle.tx_lines.specs.declared.book.Mark.{Mark};
ghost use Rattle.tx_lines.specs.Book.{is_line_of, has_status, room_taken, switched_set, answer_of};
ghost use Rattle.tx_lines.specs.Status.{with_mark, is_unmarked};
ghost use Rattle.tx_lines.specs.inner.Kept.{with_mark_of, status_of, kept_status};

use crate::ranges::Ranges;
use indexmap::IndexMap;
use std::alloc::{Allocator, Global};
use std::marker::Model;
use tx_plan::{ByWord, CodeId, Line, National, Plan};
use tx_text::NoMemory;

/// What a home exchange finds at the line that was called. The first that applies is answered.
#[derive(Clone, Copy)]
pub enum LineAnswer {
    /// No line of the code has the number (NP).
    NoLine,
    /// The line is out of order (DER).
    OutOfOrder,
    /// The subscriber is absent (ABS).
    Away,
    /// The line takes part in a call (OCC).
    Engaged,
    /// The line may be connected.
    Free(Line),
}

/// A mark that a line may have.
#[derive(Clone, Copy)]
pub enum Mark {
    Faulty,
    Away,
    Engaged,
}

/// What is known of a line: the marks that it has.
#[derive(Clone, Copy)]
pub struct Status {
    pub faulty: bool,
    pub away: bool,
    pub engaged: bool,
}

/// No mark.
pub const UNMARKED: Status = Status {
    faulty: false,
    away: false,
    engaged: false,
};

impl Status {
    /// Whether there is no mark.
    pub(crate) fn is_unmarked(self) -> bool
        ensures { result ≡ is_unmarked self }
    {
        !self.faulty && !self.away && !self.engaged
    }

    /// The status with the mark set or taken away.
    pub(crate) fn with_mark(self, mark: Mark, on: bool) -> Status
        ensures { result ≡ with_mark mark on self }
    {
        match mark {
            Mark::Faulty => Status { faulty: on, ..self },
            Mark::Away => Status { away: on, ..self },
            Mark::Engaged => Status {
                engaged: on,
                ..self
            },
        }
    }
}

/// The lines of a plan, and which of them are faulty (out of order), away (their subscriber is
/// absent) or engaged.
///
/// A line's first status takes room for one line, which `reserve_one` makes; a further one takes
/// none. `build` and `reserve_one` alone take memory.
pub struct LineBook<A: Allocator = Global> {
    ranges: Ranges<A>,
    statuses: IndexMap<Line, Status, ByWord, A>,
}

impl<A: Allocator> Drop for LineBook<A> {
    fn drop(self) {
        let Self { ranges, statuses } = self;
        drop(ranges);
        drop(statuses);
    }
}

impl<A: Allocator> Model for LineBook<A> {
    ghost use Rattle.tx_lines.specs.Book.{Book, coded_book};
    ghost use Rattle.tx_lines.specs.inner.Kept.{book_of, AllMarked};

    ghost Value = { Book };

    ghost coded = { coded_book };

    ghost view = { λ b. book_of b.ranges b.statuses };

    // A line is in the map exactly while it has a status.
    ghost invariant = { λ b. AllMarked b.statuses };
}

impl<A: Allocator + Copy> LineBook<A> {
    /// The book of a plan's lines, none of which has a status.
    pub fn build(alloc: A, plan: &Plan<A>) -> Result<Self, NoMemory>
        ensures lines { IfOk result (λ b. (code : ℕ) (number : List ℕ)
            → is_line_of b.ranges code number ≡ is_line_at plan.now code number) }
        ensures faulty { IfOk result (λ b. b.faulty ≡ set.empty) }
        ensures away { IfOk result (λ b. b.away ≡ set.empty) }
        ensures engaged { IfOk result (λ b. b.engaged ≡ set.empty) }
    {
        let ranges = Ranges::build(alloc, plan)?;
        Ok(LineBook {
            ranges,
            statuses: IndexMap::with_hasher(alloc, ByWord),
        })
    }
}

impl<A: Allocator> LineBook<A> {
    /// Makes room for one more line with a status. Where there is some, no memory is asked for.
    /// Lack of memory changes no status.
    pub fn reserve_one(&mut self) -> Result<(), NoMemory>
        ensures ok { OnOk result (0 < self.new.room) }
        ensures rest { self.new ≡ record self.old { room = self.new.room } }
        ensures room { self.old.room ≤ self.new.room }
        ensures unasked { 0 < self.old.room → IsOk result × (self.new ≡ self.old) }
    {
        if self.statuses.len() == self.statuses.capacity() {
            self.statuses.reserve(1)?;
        }
        Ok(())
    }

    /// The line of a code and a national number, if the number lies in a range of the code.
    pub fn find(&self, code: CodeId, national: &[u8]) -> Option<Line>
        ensures { result ≡ (if is_line_of self.now.ranges code national.now
            then Some (record { code = code; national = national.now }) else None) }
    {
        let national = National::read(national)?;
        if self.ranges.has(code, national.bytes()) {
            Some(Line { code, national })
        } else {
            None
        }
    }

    /// Whether the line lies in a range of its code.
    pub fn has(&self, line: &Line) -> bool
        ensures { result ≡ is_line_of self.now.ranges line.now.code line.now.national }
    {
        self.ranges.has(line.code, line.national.bytes())
    }

    /// All that is known of the line.
    pub fn status(&self, line: &Line) -> Status
        ensures faulty { result.faulty ≡ set.contains self.now.faulty line.now }
        ensures away { result.away ≡ set.contains self.now.away line.now }
        ensures engaged { result.engaged ≡ set.contains self.now.engaged line.now }
    {
        self.statuses.get(line).copied().unwrap_or(UNMARKED)
    }

    /// Sets a mark of the line, or takes it away.
    fn set_mark(&mut self, line: &Line, mark: Mark, on: bool)
        requires { on ≡ true → has_status self.old line.now ≡ false → 0 < self.old.room }
        ensures lines { self.new
            ≡ record (with_mark_of line.now mark on self.old) { room = self.new.room } }
        ensures room { self.old.room
            ≤ self.new.room + (if on then room_taken self.old line.now else 0) }
    {
        if on {
            add_mark(&mut self.statuses, line, mark);
        } else {
            take_mark(&mut self.statuses, line, mark);
        }
    }

    /// The line becomes faulty, or is no longer so.
    pub fn set_fault(&mut self, line: &Line, faulty: bool)
        requires { faulty ≡ true → has_status self.old line.now ≡ false → 0 < self.old.room }
        ensures lines { self.new ≡ record self.old {
          faulty = switched_set faulty self.old.faulty line.now;
          room = self.new.room;
        } }
        ensures room { self.old.room
            ≤ self.new.room + (if faulty then room_taken self.old line.now else 0) }
    {
        self.set_mark(line, Mark::Faulty, faulty);
    }

    /// The line's subscriber is away, or is back.
    pub fn set_away(&mut self, line: &Line, away: bool)
        requires { away ≡ true → has_status self.old line.now ≡ false → 0 < self.old.room }
        ensures lines { self.new ≡ record self.old {
          away = switched_set away self.old.away line.now;
          room = self.new.room;
        } }
        ensures room { self.old.room
            ≤ self.new.room + (if away then room_taken self.old line.now else 0) }
    {
        self.set_mark(line, Mark::Away, away);
    }

    /// The line takes part in a call.
    pub fn engage(&mut self, line: &Line)
        requires { has_status self.old line.now ≡ false → 0 < self.old.room }
        ensures lines { self.new ≡ record self.old {
          engaged = set.insert self.old.engaged line.now;
          room = self.new.room;
        } }
        ensures room { self.old.room ≤ self.new.room + room_taken self.old line.now }
    {
        self.set_mark(line, Mark::Engaged, true);
    }

    /// The line takes part in no call.
    pub fn free(&mut self, line: &Line)
        ensures lines { self.new ≡ record self.old {
          engaged = set.remove self.old.engaged line.now;
          room = self.new.room;
        } }
        ensures room { self.old.room ≤ self.new.room }
    {
        self.set_mark(line, Mark::Engaged, false);
    }

    /// Whether the line is faulty.
    pub fn is_faulty(&self, line: &Line) -> bool
        ensures { result ≡ set.contains self.now.faulty line.now }
    {
        self.status(line).faulty
    }

    /// Whether the line's subscriber is away.
    pub fn is_away(&self, line: &Line) -> bool
        ensures { result ≡ set.contains self.now.away line.now }
    {
        self.status(line).away
    }

    /// Whether the line takes part in a call.
    pub fn is_engaged(&self, line: &Line) -> bool
        ensures { result ≡ set.contains self.now.engaged line.now }
    {
        self.status(line).engaged
    }

    /// What a home exchange finds for a code and a national number.
    pub fn answer(&self, code: CodeId, national: &[u8]) -> LineAnswer
        ensures { result ≡ answer_of self.now code national.now }
    {
        let Some(line) = self.find(code, national) else {
            return LineAnswer::NoLine;
        };
        let status = self.status(&line);
        if status.faulty {
            LineAnswer::OutOfOrder
        } else if status.away {
            LineAnswer::Away
        } else if status.engaged {
            LineAnswer::Engaged
        } else {
            LineAnswer::Free(line)
        }
    }
}

/// Sets a mark of a line, which takes room if the line has none.
#[tactic(auto, using(crate::proofs::Entries::write_room))]
fn add_mark<A: Allocator>(statuses: &mut IndexMap<Line, Status, ByWord, A>, line: &Line, mark: Mark)
    requires { get same_line statuses.old line.now ≡ None → 0 < spare statuses.old }
    ensures updates { Updates same_line statuses.old statuses.new line.now
        (Some (with_mark mark true (status_of statuses.old line.now))) }
    ensures room { spare statuses.old ≤ spare statuses.new
        + (if is_some (get same_line statuses.old line.now) then 0 else 1) }
{
    let status = statuses.entry(*line).unwrap().or_insert(UNMARKED);
    *status = status.with_mark(mark, true);
}

/// Takes a mark of a line away, and with its last mark the line.
fn take_mark<A: Allocator>(
    statuses: &mut IndexMap<Line, Status, ByWord, A>,
    line: &Line,
    mark: Mark,
)
    ensures kept { (q : Line) → get same_line statuses.new q ≡ (if same_line line.now q
        then kept_status (with_mark mark false (status_of statuses.old line.now))
        else get same_line statuses.old q) }
    ensures room { spare statuses.old ≤ spare statuses.new }
{
    let Some((index, _, status)) = statuses.get_full(line) else {
        return;
    };
    let left = status.with_mark(mark, false);
    if left.is_unmarked() {
        let _entry = statuses.swap_remove_index(index);
    } else if let Some(status) = statuses.get_mut(line) {
        *status = left;
    }
}
