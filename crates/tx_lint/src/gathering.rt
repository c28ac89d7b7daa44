// One mistake is told once: the lines that need a name which a line at fault has left undeclared are
// counted there.
ghost use Rattle.std.specs.Prelude.{◌≡◌, ◌+◌, ◌<◌, ◌^◌, map, IfOk, OnOk, option_map, option_and_then};
ghost use Rattle.tx_lint.specs.Gathered.{as_name, cause_in, count_at, gathered_on, no_gathering, noted, told_of};
ghost use Rattle.tx_lint.specs.Lints.{fault_held, told_held};
ghost use Rattle.tx_lint.specs.inner.Gatherings.{AreFew, gathering_held};

use crate::fault::Fault;
use indexmap::IndexMap;
use std::alloc::Allocator;
use tx_plan::{ByWord, NameKey};
use tx_text::NoMemory;

/// A fault that is told.
#[derive(Clone, Copy)]
pub struct Told<'t> {
    pub fault: Fault<'t>,
    /// How many lines need what its line has left undeclared.
    pub needing: u64,
}

/// The faults that are told so far, and the names that are missing, each with the index of the
/// fault that it comes from.
struct Gathering<'t, A: Allocator> {
    told: Vec<Told<'t>, A>,
    missing: IndexMap<NameKey, usize, ByWord, A>,
}

impl<'t, A: Allocator> Drop for Gathering<'t, A> {
    fn drop(self) {
        let Self { told, missing } = self;
        drop(told);
        drop(missing);
    }
}

impl<'t, A: Allocator + Copy> Gathering<'t, A> {
    /// Nothing is told yet.
    fn new(alloc: A) -> Gathering<'t, A>
        ensures { gathering_held result ≡ no_gathering }
    {
        Gathering {
            told: Vec::new(alloc),
            missing: IndexMap::with_hasher(alloc, ByWord),
        }
    }

    /// Takes the next fault: one that comes from an earlier one is counted there.
    fn take(&mut self, alloc: A, fault: Fault<'t>) -> Result<(), NoMemory>
        requires { AreFew (2 ^ 63) (gathering_held self.old) }
        ensures { OnOk result (gathering_held self.new
            ≡ gathered_on (gathering_held self.old) (fault_held fault.entry)) }
    {
        let needed = as_name(alloc, fault.needed_word())?;
        let left = as_name(alloc, fault.meant)?;
        match self.cause(&needed) {
            Some(index) => {
                self.count(index);
                self.note(left, index)
            }
            None => {
                let index = self.told.len();
                self.told.push(Told { fault, needing: 0 })?;
                self.note(needed, index)?;
                self.note(left, index)
            }
        }
    }
}

impl<'t, A: Allocator> Gathering<'t, A> {
    /// The index of the fault that a missing name comes from, if it is missing.
    fn cause(&self, name: &Option<NameKey>) -> Option<usize>
        ensures { result ≡ option_and_then (cause_in (gathering_held self.now).missing) name.now }
    {
        match name {
            Some(name) => self.missing.get(name).copied(),
            None => None,
        }
    }

    /// Counts one line more at the fault at an index.
    fn count(&mut self, index: usize)
        requires { AreFew (2 ^ 63) (gathering_held self.old) }
        ensures { gathering_held self.new ≡ record (gathering_held self.old) {
          told = count_at (gathering_held self.old).told index;
        } }
    {
        if let Some(told) = self.told.get_mut(index) {
            told.needing += 1;
        }
    }

    /// Notes that a name is missing, if there is one, by the fault at an index.
    fn note(&mut self, name: Option<NameKey>, index: usize) -> Result<(), NoMemory>
        ensures { OnOk result (gathering_held self.new ≡ record (gathering_held self.old) {
          missing = noted name index (gathering_held self.old).missing;
        }) }
    {
        if let Some(name) = name {
            self.missing.insert(name, index)?;
        }
        Ok(())
    }

    /// What is told.
    fn told(self) -> Vec<Told<'t>, A>
        ensures { map told_held result.items ≡ (gathering_held self.entry).told }
    {
        let Self { told, missing } = self;
        drop(missing);
        told
    }
}

/// A word as the name that was meant: in capitals, and none if it is too long for one.
fn as_name<A: Allocator>(alloc: A, word: Option<&[u8]>) -> Result<Option<NameKey>, NoMemory>
    ensures { IfOk result (λ name.
        name ≡ option_and_then as_name (option_map (λ w. w.now) word.entry)) }
{
    match word {
        Some(word) if word.len() <= 8 => {
            let name = word.to_ascii_uppercase(alloc)?;
            Ok(Some(NameKey::new(&name)))
        }
        _ => Ok(None),
    }
}

/// What is told of these faults.
pub(crate) fn gather<'t, A: Allocator + Copy>(
    alloc: A,
    faults: &[Fault<'t>],
) -> Result<Vec<Told<'t>, A>, NoMemory>
    ensures { IfOk result (λ told.
        map told_held told.items ≡ told_of (map fault_held faults.now)) }
{
    let mut gathering = Gathering::new(alloc);
    for i in 0..faults.len() {
        gathering.take(alloc, faults[i])?;
    }
    Ok(gathering.told())
}
