// The writes that stand in a run-up while it is tried.
ghost use Rattle.std.specs.Prelude.{◌≡◌, ◌-◌, ◌<◌, ◌≤◌, slice_index};
ghost use Rattle.searching.specs.Standing.{free, Holds, started, moved, pushed, popped};

// The first `count` of `writes` stand, in this order. `absent` are the writes that do not stand, and `far` the standing ones that
// are not among the last k - 1.
#[derive(Clone, Copy)]
pub struct Standing {
    pub writes: [u8; 64],
    pub count: usize,
    pub absent: u64,
    pub far: u64,
}

impl Standing {
    pub fn none(n: usize) -> Standing
        requires { n ≤ 64 }
        ensures { result ≡ started n }
    {
        let absent = if n == 64 { u64::MAX } else { (1 << n) - 1 };
        Standing {
            writes: [0; 64],
            count: 0,
            absent,
            far: 0,
        }
    }

    pub fn may_take(&self, write: usize, before: u64, behind: u64) -> bool
        requires { write < 64 }
        ensures { result ≡ free write before behind self.now.absent self.now.far }
    {
        self.absent & (1 << write) != 0 && before & self.absent == 0 && behind & self.far == 0
    }

    // A longer run-up has one more member far, and the shorter one has it near again: the same change both ways.
    fn move_window(&mut self, k: usize)
        requires { (Holds self.old) × (0 < k) }
        ensures { self.new ≡ moved k self.old }
    {
        if self.count >= k {
            self.far ^= 1 << self.writes[self.count - k];
        }
    }

    pub fn push(&mut self, write: usize, k: usize)
        requires { (Holds self.old) × ((self.old.count < 64) × ((write < 64) × (0 < k))) }
        ensures { self.new ≡ pushed k write self.old }
    {
        self.writes[self.count] = write as u8;
        self.count += 1;
        self.absent ^= 1 << write;
        self.move_window(k);
    }

    pub fn pop(&mut self, k: usize) -> usize
        requires { (Holds self.old) × ((0 < self.old.count) × (0 < k)) }
        ensures { (result ≡ slice_index self.old.writes (self.old.count - 1)) × (self.new ≡ popped k self.old) }
    {
        self.move_window(k);
        self.count -= 1;
        let write = self.writes[self.count] as usize;
        self.absent ^= 1 << write;
        write
    }
}
