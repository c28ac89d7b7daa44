// The use of a group.
ghost use Rattle.std.specs.Prelude.{◌≡◌, ◌≤◌, true};
ghost use Rattle.tx_script.specs.inner.Counting.{no_marks, count_in, with_most, idle, with_mark};

/// Which circuits of a group are taken, by their numbers, and the most that were at once.
#[derive(Clone, Copy)]
pub(crate) struct GroupUse {
    pub taken: [bool; 241],
    pub most: u32,
}

impl GroupUse {
    /// No circuit was taken yet.
    pub(crate) fn new() -> GroupUse
        ensures { result ≡ idle }
    {
        GroupUse {
            taken: [false; 241],
            most: 0,
        }
    }

    /// The circuit of this number was seized, in a group that has so many.
    pub(crate) fn seize(&mut self, number: u32, circuits: u32)
        requires { circuits ≤ 240 }
        ensures { self.new ≡ with_most circuits (with_mark number true self.old) }
    {
        self.mark(number, true);
        self.most = self.most.max(self.count(circuits));
    }

    /// The circuit of this number is taken or not. There is none above 240.
    pub(crate) fn mark(&mut self, number: u32, taken: bool)
        ensures { self.new ≡ with_mark number taken self.old }
    {
        let index = number as usize;
        if index < 241 {
            self.taken[index] = taken;
        }
    }

    /// No circuit is taken any more.
    pub(crate) fn clear(&mut self)
        ensures { self.new ≡ no_marks self.old }
    {
        self.taken = [false; 241];
    }

    /// How many of so many circuits are taken.
    fn count(&self, circuits: u32) -> u32
        requires { circuits ≤ 240 }
        ensures { result ≡ count_in self.now.taken circuits }
    {
        let mut count = 0;
        for number in 0..circuits as usize {
            if self.taken[number + 1] {
                count += 1;
            }
        }
        count
    }
}
