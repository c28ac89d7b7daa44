// A group that fails.
ghost use Rattle.std.specs.Prelude.{◌≡◌, ℕ, ◌<◌, ◌≤◌, ◌+◌, ◌-◌, ◌^◌, ◌++◌, ◌∷◌, [], List, length, find, Some, None, true};
ghost use Rattle.std.specs.FinSet as set;
ghost use Rattle.std.specs.List.Sorted.{IsSorted};
ghost use Rattle.std.specs.Ordering.{nat_cmp};
ghost use Rattle.arrayvec.specs.ArrayVec.{array_vec_len};
ghost use Rattle.tx_machine.specs.declared.event.Event.TheVariants.{Fail};
ghost use Rattle.tx_machine.specs.declared.cause.Cause.TheVariants.{Lost as ByLoss};
ghost use Rattle.tx_machine.specs.Call.{Call, call_of};
ghost use Rattle.tx_machine.specs.Ending.{end_call};
ghost use Rattle.tx_machine.specs.InUse.{uses_group, seizes_from};
ghost use Rattle.tx_machine.specs.Refusals.{refusal};
ghost use Rattle.tx_machine.specs.Step.{accepted};
ghost use Rattle.tx_engine.specs.inner.KeptCalls.{calls_in};
ghost use Rattle.tx_engine.specs.inner.InTurn.{uses, IsLosing};
ghost use Rattle.tx_engine.specs.inner.Users.{AreNumbersOf};
ghost use Rattle.tx_engine.specs.inner.Sound.{IsSound, state_of};

use crate::engine::EngineState;
use arrayvec::ArrayVec;
use std::alloc::Allocator;
use tx_machine::{Cause, Reply};
use tx_plan::{Circuit, ExchangeId, GroupId};

/// Numbers of calls on a group. Each of its 240 circuits has at most two.
type Users = ArrayVec<u32, 480>;

impl<'p, A: Allocator + Copy> EngineState<'p, A> {
    /// A group fails.
    pub(crate) fn fail(&mut self, group: GroupId) -> Reply
        requires sound { IsSound self.old }
        requires open { refusal self.old.plan.now (state_of self.old) (Fail group) ≡ None }
        ensures sound { IsSound self.new }
        ensures plan { self.new.plan.now ≡ self.old.plan.now }
        ensures step { accepted self.old.plan.now (state_of self.old) (Fail group)
            ≡ (result, state_of self.new) }
    {
        let lost = self.lose_users(group);
        self.circuits.fail(group);
        Reply::Lost(lost)
    }

    /// The calls on a group end in order of their numbers. How many there were.
    fn lose_users(&mut self, group: GroupId) -> u64
        requires sound { IsSound self.old }
        requires events { self.old.events < 2 ^ 64 - 1 }
        ensures sound { IsSound self.new }
        ensures plan { self.new.plan.now ≡ self.old.plan.now }
        ensures losing { IsLosing self.old.plan.now group
            (state_of self.old) (state_of self.new) result }
        ensures none { find (uses_group group) (calls_in self.new.calls) ≡ None }
        ensures failed { (state_of self.new).failed ≡ (state_of self.old).failed }
        ensures events { self.new.events ≡ self.old.events }
    {
        let mut users = self.users_of(group);
        let numbers = users.as_mut_slice();
        numbers.sort_unstable();
        self.lose(group, numbers)
    }

    /// The calls of these numbers, which are those of the calls on a group in ascending order, end.
    /// How many there were.
    fn lose(&mut self, group: GroupId, numbers: &[u32]) -> u64
        requires sound { IsSound self.old }
        requires events { self.old.events < 2 ^ 64 - 1 }
        requires users { AreNumbersOf (uses_group group) (calls_in self.old.calls) numbers.now }
        requires ascending { IsSorted nat_cmp numbers.now }
        requires few { length numbers.now ≤ 480 }
        ensures sound { IsSound self.new }
        ensures plan { self.new.plan.now ≡ self.old.plan.now }
        ensures losing { IsLosing self.old.plan.now group
            (state_of self.old) (state_of self.new) result }
        ensures none { find (uses_group group) (calls_in self.new.calls) ≡ None }
        ensures failed { (state_of self.new).failed ≡ (state_of self.old).failed }
        ensures events { self.new.events ≡ self.old.events }
    {
        let mut lost = 0;
        for number in numbers {
            lost += self.lose_one(*number);
        }
        lost
    }

    /// The call of a number ends, if it is open. How many calls this was.
    fn lose_one(&mut self, number: u32) -> u64
        requires sound { IsSound self.old }
        requires events { self.old.events < 2 ^ 64 - 1 }
        ensures sound { IsSound self.new }
        ensures plan { self.new.plan.now ≡ self.old.plan.now }
        ensures events { self.new.events ≡ self.old.events }
        ensures failed { (state_of self.new).failed ≡ (state_of self.old).failed }
        ensures few { result ≤ 1 }
        ensures lost { (c : Call) → call_of number (calls_in self.old.calls) ≡ Some c → (result ≡ 1)
            × (state_of self.new ≡ end_call self.old.plan.now ByLoss number (state_of self.old)) }
        ensures none { call_of number (calls_in self.old.calls) ≡ None
            → (result ≡ 0) × (state_of self.new ≡ state_of self.old) }
    {
        match self.calls.find(number) {
            None => 0,
            Some(key) => {
                self.end_call(key, Cause::Lost);
                1
            }
        }
    }

    /// The numbers of the calls on a group, some of them twice.
    fn users_of(&self, group: GroupId) -> Users
        requires { IsSound self.now }
        ensures { AreNumbersOf (uses_group group) (calls_in self.now.calls) result.items }
    {
        let mut users = ArrayVec::new();
        for number in 0..self.plan.group_count(group) {
            let circuit = Circuit {
                group,
                number: number + 1,
            };
            self.add_users(&circuit, &mut users);
        }
        users
    }

    /// Adds the numbers of the calls that use a circuit.
    fn add_users(&self, circuit: &Circuit, users: &mut Users)
        requires sound { IsSound self.now }
        requires room { array_vec_len users.old + 2 ≤ 480 }
        ensures added { (numbers : List ℕ) × (users.new.items ≡ users.old.items ++ numbers)
            × AreNumbersOf (λ c. uses c circuit.now) (calls_in self.now.calls) numbers }
        ensures len { array_vec_len users.new ≤ array_vec_len users.old + 2 }
    {
        if self.circuits.is_carried(circuit) {
            users.push(self.carrier(circuit));
            return;
        }
        let (one, other) = self.plan.ends(circuit.group);
        self.add_seizer(circuit, one, users);
        self.add_seizer(circuit, other, users);
    }

    /// Adds the number of the call that has seized a circuit from an exchange, if one has.
    fn add_seizer(&self, circuit: &Circuit, exchange: ExchangeId, users: &mut Users)
        requires sound { IsSound self.now }
        requires room { array_vec_len users.old + 1 ≤ 480 }
        ensures added { (numbers : List ℕ) × (users.new.items ≡ users.old.items ++ numbers)
            × AreNumbersOf (λ c. seizes_from self.now.plan.now c circuit.now exchange)
            (calls_in self.now.calls) numbers }
        ensures len { array_vec_len users.new ≤ array_vec_len users.old + 1 }
    {
        if self.circuits.is_seized(circuit, exchange) {
            users.push(self.seizer(circuit, exchange));
        }
    }

    /// The number of the call that carries a circuit.
    fn carrier(&self, circuit: &Circuit) -> u32
        requires sound { IsSound self.now }
        requires carried { set.contains self.now.circuits.carried circuit.now ≡ true }
        ensures { AreNumbersOf (λ c. uses c circuit.now) (calls_in self.now.calls) (result ∷ []) }
    {
        self.calls.at(self.keys.get(circuit, true)).number
    }

    /// The number of the call that has seized a circuit from an exchange.
    fn seizer(&self, circuit: &Circuit, exchange: ExchangeId) -> u32
        requires sound { IsSound self.now }
        requires seized { set.contains self.now.circuits.seized (circuit.now, exchange) ≡ true }
        ensures { AreNumbersOf (λ c. seizes_from self.now.plan.now c circuit.now exchange)
            (calls_in self.now.calls) (result ∷ []) }
    {
        let (first, _) = self.plan.ends(circuit.group);
        self.calls
            .at(self.keys.get(circuit, first == exchange))
            .number
    }
}
