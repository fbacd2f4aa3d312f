ghost use Rattle.std.specs.Prelude.{◌≡◌, ◌≤◌, length};

/// The values of a run's registers.
#[derive(Clone, Copy)]
pub struct Registers {
    // an array and how much of it counts: nothing here allocates, and registers are copied
    pub(crate) values: [u8; 4],
    // how many registers there are: the values past them mean nothing
    pub(crate) count: u8,
    ghost four: { length values ≡ 4 },
    ghost few: { count ≤ 4 },
}

impl Registers {
    ghost use Rattle.std.specs.Prelude.{MatchBool, ◌<◌, ◌≢◌, [], ◌∷◌, ◌++◌, slice_index, slice_set};
    ghost use Rattle.runs.specs.Held.{held};

    /// No registers.
    pub fn new() -> Registers
        ensures { held result ≡ [] }
    {
        Registers {
            values: [0; 4],
            count: 0,
        }
    }

    // The values of the registers that there are.
    fn all(&self) -> &[u8]
        ensures { result.now ≡ held self.now }
    {
        &self.values[..usize::from(self.count)]
    }

    /// The register's value, or 0 where there is no such register.
    pub fn get(&self, register: u8) -> u8
        ensures { result ≡ slice_index (held self.now) register }
    {
        self.all().get(usize::from(register)).copied().unwrap_or(0)
    }

    /// Sets the register, where there is one of that number.
    pub fn put(&mut self, register: u8, value: u8)
        ensures { held self.new ≡ slice_set (held self.old) register value }
    {
        if register < self.count {
            self.values[usize::from(register)] = value;
        }
    }

    /// Whether there are as many registers in both, with the same values. A method, since registers past the
    /// count may differ, and it promises that both are the same.
    pub fn same(&self, other: &Registers) -> bool
        ensures { MatchBool result (held self.now ≡ held other.now) (held self.now ≢ held other.now) }
    {
        self.all() == other.all()
    }
}
