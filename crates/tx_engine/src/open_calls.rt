// The open calls, under keys and by number.
ghost use Rattle.std.specs.Prelude.{◌≡◌, ◌<◌, ◌≤◌, ◌+◌, ◌++◌, ◌∷◌, [], ℕ, not, filter, length, IsOk, OnOk, IfSome, IfNone, Some, None, is_some, true, vec_len, vec_capacity};
ghost use Rattle.tx_machine.specs.Call.{Call, call_of, is_numbered};
ghost use Rattle.tx_plan.specs.Among.{Among};
ghost use Rattle.tx_machine.specs.Routing.{in_phase, set_call};
ghost use Rattle.tx_machine.specs.Confirming.{carried_on, thrown_back};
ghost use Rattle.slab.specs.Slab.{get, HasRoomFor, Updates};
ghost use Rattle.tx_machine.specs.declared.open_call.Phase.TheVariants.{Standing};
ghost use Rattle.tx_machine.specs.declared.open_call.OpenCall.{OpenCall};
ghost use Rattle.tx_engine.specs.inner.KeptCalls.{Kept, HasRoom, kept_at, Changes, calls_in, kept_of};
ghost use Rattle.tx_machine.specs.Seen.{call_seen};

use indexmap::IndexMap;
use slab::Slab;
use std::alloc::{Allocator, Global};
use std::marker::Model;
use tx_machine::{Hop, OpenCall, Phase};
use tx_plan::ByWord;
use tx_text::NoMemory;

/// The open calls. Each has a key from its opening to its end, and is found by its number.
pub(crate) struct OpenCalls<A: Allocator = Global> {
    calls: Slab<OpenCall<A>, A>,
    by_number: IndexMap<u32, usize, ByWord, A>,
}

impl<A: Allocator> Drop for OpenCalls<A> {
    fn drop(self) {
        let Self { calls, by_number } = self;
        drop(calls);
        drop(by_number);
    }
}

impl<A: Allocator> Model for OpenCalls<A> {
    ghost use Rattle.tx_engine.specs.inner.KeptCalls.{KeptCalls, calls_of, slots_of};
    ghost use Rattle.tx_engine.specs.inner.Tied.{IsTied};

    ghost Value = { KeptCalls };

    ghost view = { λ c. calls_of c.calls c.by_number };

    ghost invariant = { λ c. IsTied (slots_of c.calls) c.by_number };
}

impl<A: Allocator + Copy> OpenCalls<A> {
    /// No call is open.
    pub(crate) fn new(alloc: A) -> Self
        ensures { result.slots ≡ [] }
    {
        OpenCalls {
            calls: Slab::new(alloc),
            by_number: IndexMap::with_hasher(alloc, ByWord),
        }
    }
}

impl<A: Allocator> OpenCalls<A> {
    /// How many are open.
    pub(crate) fn len(&self) -> usize
        ensures { result ≡ length (calls_in self.now) }
    {
        self.calls.len()
    }

    /// Makes room for one more call. Where there is some, no memory is asked for. Lack of memory
    /// changes no call.
    pub(crate) fn reserve_one(&mut self) -> Result<(), NoMemory>
        ensures ok { OnOk result (HasRoom self.new) }
        ensures rest { self.new ≡ record self.old
            { call_room = self.new.call_room; number_room = self.new.number_room } }
        ensures unasked { HasRoom self.old → IsOk result × (self.new ≡ self.old) }
    {
        self.calls.reserve(1)?;
        if self.by_number.len() == self.by_number.capacity() {
            self.by_number.reserve(1)?;
        }
        Ok(())
    }

    /// The key of the call of a number.
    pub(crate) fn find(&self, number: u32) -> Option<usize>
        ensures found { IfSome result (λ key. (k : Kept) × (kept_at self.now key ≡ Some k)
            × (call_of number (calls_in self.now) ≡ Some k.call) × (k.call.number ≡ number)) }
        ensures none { IfNone result (call_of number (calls_in self.now) ≡ None) }
    {
        match self.by_number.get(&number) {
            Some(key) => Some(*key),
            None => None,
        }
    }

    /// The call under a key.
    pub(crate) fn at(&self, key: usize) -> &OpenCall<A>
        requires { is_some (kept_at self.now key) ≡ true }
        ensures { kept_at self.now key ≡ Some (kept_of result.now) }
    {
        match self.calls.get(key) {
            Some(call) => call,
            None => unreachable!(),
        }
    }

    /// Opens a call of the next number.
    pub(crate) fn open(&mut self, call: OpenCall<A>)
        requires room { HasRoom self.old }
        requires next { (d : Call) → Among d (calls_in self.old) → d.number < call.number }
        ensures changes { (key : ℕ) × (kept_at self.old key ≡ None)
            × Changes self.old self.new key (Some (kept_of call)) }
        ensures calls { calls_in self.new ≡ calls_in self.old ++ call_seen call ∷ [] }
    {
        let number = call.number;
        let key = put_in(&mut self.calls, call);
        let _absent = self.by_number.insert(number, key).unwrap();
    }

    /// The call under a key goes to another phase.
    pub(crate) fn set_phase(&mut self, key: usize, phase: Phase)
        requires { is_some (kept_at self.old key) ≡ true }
        ensures changes { (k : Kept) → kept_at self.old key ≡ Some k
            → Changes self.old self.new key (Some (record k { call = in_phase phase k.call })) }
        ensures calls { (k : Kept) → kept_at self.old key ≡ Some k
            → calls_in self.new ≡ set_call k.call.number (in_phase phase) (calls_in self.old) }
    {
        write_phase(&mut self.calls, key, phase);
    }

    /// Makes room for one more hop of the call under a key. Where there is some, no memory is asked
    /// for.
    pub(crate) fn reserve_hop(&mut self, key: usize) -> Result<(), NoMemory>
        requires { is_some (kept_at self.old key) ≡ true }
        ensures changes { (k : Kept) → kept_at self.old key ≡ Some k
            → (r : ℕ) × Changes self.old self.new key (Some (record k { room = r }))
            × (k.room ≤ r) × OnOk result (0 < r) × (0 < k.room → IsOk result × (r ≡ k.room)) }
        ensures calls { calls_in self.new ≡ calls_in self.old }
    {
        more_hops(&mut self.calls, key)
    }

    /// The call under a key goes on over a hop.
    pub(crate) fn go_on(&mut self, key: usize, hop: Hop)
        requires there { is_some (kept_at self.old key) ≡ true }
        requires room { (k : Kept) → kept_at self.old key ≡ Some k → 0 < k.room }
        ensures changes { (k : Kept) → kept_at self.old key ≡ Some k
            → (r : ℕ) × Changes self.old self.new key
            (Some (record { call = carried_on hop.circuit hop.far k.call; room = r })) }
        ensures calls { (k : Kept) → kept_at self.old key ≡ Some k → calls_in self.new
            ≡ set_call k.call.number (carried_on hop.circuit hop.far) (calls_in self.old) }
    {
        add_hop(&mut self.calls, key, hop);
    }

    /// The call under a key is thrown back to where it stands.
    pub(crate) fn throw_back(&mut self, key: usize)
        requires { is_some (kept_at self.old key) ≡ true }
        ensures changes { (k : Kept) → kept_at self.old key ≡ Some k
            → Changes self.old self.new key (Some (record k { call = thrown_back k.call })) }
        ensures calls { (k : Kept) → kept_at self.old key ≡ Some k
            → calls_in self.new ≡ set_call k.call.number thrown_back (calls_in self.old) }
    {
        write_collision(&mut self.calls, key);
    }

    /// Takes out the call under a key.
    pub(crate) fn take_out(&mut self, key: usize) -> OpenCall<A>
        requires { is_some (kept_at self.old key) ≡ true }
        ensures value { kept_at self.old key ≡ Some (kept_of result) }
        ensures changes { Changes self.old self.new key None }
        ensures calls { calls_in self.new
            ≡ filter (λ c. not (is_numbered result.number c)) (calls_in self.old) }
    {
        let call = self.calls.try_remove(key).unwrap();
        let _key = self.by_number.swap_remove(&call.number);
        call
    }
}

/// Puts a call in, under the next key.
fn put_in<A: Allocator>(calls: &mut Slab<OpenCall<A>, A>, call: OpenCall<A>) -> usize
    requires { HasRoomFor calls.old 1 }
    ensures was_vacant { get calls.old result ≡ None }
    ensures updates { Updates calls.old calls.new result (Some call) }
{
    calls.insert_reserved(call)
}

/// The call is in another phase.
fn write_phase<A: Allocator>(calls: &mut Slab<OpenCall<A>, A>, key: usize, phase: Phase)
    ensures { (c : OpenCall A) → get calls.old key ≡ Some c
        → Updates calls.old calls.new key (Some (record c { phase = phase })) }
{
    if let Some(call) = calls.get_mut(key) {
        call.phase = phase;
    }
}

/// The call stands, and has collided.
fn write_collision<A: Allocator>(calls: &mut Slab<OpenCall<A>, A>, key: usize)
    ensures { (c : OpenCall A) → get calls.old key ≡ Some c
        → Updates calls.old calls.new key (Some (record c { phase = Standing; collided = true })) }
{
    if let Some(call) = calls.get_mut(key) {
        call.phase = Phase::Standing;
        call.collided = true;
    }
}

/// Makes room for one more hop: for two at first, since few calls have a third, and then for as
/// many again.
fn more_room<A: Allocator>(hops: &mut Vec<Hop, A>) -> Result<(), NoMemory>
    ensures items { hops.new.items ≡ hops.old.items }
    ensures len { vec_len hops.new ≡ vec_len hops.old }
    ensures capacity { vec_capacity hops.old ≤ vec_capacity hops.new }
    ensures ok { OnOk result (vec_len hops.new < vec_capacity hops.new) }
    ensures unasked { vec_len hops.old < vec_capacity hops.old
        → IsOk result × (vec_capacity hops.new ≡ vec_capacity hops.old) }
{
    let len = hops.len();
    if len < hops.capacity() {
        return Ok(());
    }
    let more = if len < 2 { 2 } else { len };
    hops.reserve_exact(more)?;
    Ok(())
}

/// There is room for one more hop of the call.
fn more_hops<A: Allocator>(calls: &mut Slab<OpenCall<A>, A>, key: usize) -> Result<(), NoMemory>
    ensures { (c : OpenCall A) → get calls.old key ≡ Some c
        → (d : OpenCall A) × Updates calls.old calls.new key (Some d) × (call_seen d ≡ call_seen c)
        × ((kept_of c).room ≤ (kept_of d).room) × OnOk result (0 < (kept_of d).room)
        × (0 < (kept_of c).room → IsOk result × ((kept_of d).room ≡ (kept_of c).room)) }
{
    if let Some(call) = calls.get_mut(key) {
        more_room(&mut call.hops)?;
    }
    Ok(())
}

/// The call has one hop more, and stands.
fn add_hop<A: Allocator>(calls: &mut Slab<OpenCall<A>, A>, key: usize, hop: Hop)
    requires { (c : OpenCall A) → get calls.old key ≡ Some c → 0 < (kept_of c).room }
    ensures { (c : OpenCall A) → get calls.old key ≡ Some c → (d : OpenCall A) × Updates calls.old
        calls.new key (Some d) × (call_seen d ≡ carried_on hop.circuit hop.far (call_seen c)) }
{
    if let Some(call) = calls.get_mut(key) {
        call.hops.push_reserved(hop);
        call.phase = Phase::Standing;
        call.collided = false;
    }
}
