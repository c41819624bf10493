// How many reports a vehicle has in the last minutes.
ghost use Rattle.std.specs.Prelude.{◌≡◌, ◌≤◌, ◌<◌};
ghost use Rattle.tuples_text.specs.Recents.{count_in, first_in, moved as defined_moved, noted as defined_noted};

/// How many reports a vehicle has in the minute of its newest one and in the two minutes before.
#[derive(Clone, Copy, Debug, PartialEq, Eq)]
pub struct Recent {
    pub minute: u32,
    pub newest: u8,
    pub before: u8,
    pub earlier: u8,
}

impl Recent {
    /// A first report.
    #[inline(always)]
    pub fn first(minute: u32) -> Recent
        ensures { result ≡ first_in minute }
    {
        Recent {
            minute,
            newest: 1,
            before: 0,
            earlier: 0,
        }
    }

    /// The reports of a minute.
    #[inline(always)]
    pub fn count(self, minute: u32) -> u8
        ensures { result ≡ count_in self minute }
    {
        if minute > self.minute {
            return 0;
        }
        match self.minute - minute {
            0 => self.newest,
            1 => self.before,
            2 => self.earlier,
            _ => 0,
        }
    }

    /// What is kept after a report of a later minute.
    #[inline(always)]
    fn moved(self, minute: u32) -> Recent
        requires { self.minute < minute }
        ensures { result ≡ defined_moved self minute }
    {
        let (before, earlier) = match minute - self.minute {
            1 => (self.newest, self.before),
            2 => (0, self.newest),
            _ => (0, 0),
        };
        Recent {
            minute,
            newest: 1,
            before,
            earlier,
        }
    }

    /// What is kept after one report more.
    #[inline(always)]
    pub fn noted(self, minute: u32) -> Recent
        requires { count_in self minute ≤ 3 }
        ensures { result ≡ defined_noted self minute }
    {
        if minute > self.minute {
            return self.moved(minute);
        }
        match self.minute - minute {
            0 => Recent {
                newest: self.newest + 1,
                ..self
            },
            1 => Recent {
                before: self.before + 1,
                ..self
            },
            2 => Recent {
                earlier: self.earlier + 1,
                ..self
            },
            _ => self,
        }
    }
}
