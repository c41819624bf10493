// What is to be generated.
ghost use Rattle.std.specs.Prelude.{◌≡◌};
ghost use Rattle.tuples_traffic.specs.Plans.{field_out};

use thiserror::Error;

/// The seed of the draws, and how many vehicles, minutes from midnight, expressways and crashes there are.
#[derive(Clone, Copy, Debug, PartialEq, Eq)]
pub struct GenPlan {
    pub seed: u64,
    pub vehicles: u32,
    pub minutes: u32,
    pub xways: u16,
    pub crashes: u32,
}

/// Why there is no file, or not all of it.
#[derive(Clone, Copy, Debug, PartialEq, Eq, Error)]
pub enum GenFault {
    /// The number of the plan's first field that is out of its range.
    #[error("number {0} of the plan is out of its range")]
    Size(u8),
    /// The sink failed.
    #[error("a write failed")]
    WriteFault,
    /// Memory ran out.
    #[error("no memory")]
    NoMemory,
}

impl GenPlan {
    /// The number of the first field that is out of its range, if one is: 1 to 5,000 vehicles, 1 to 1,440 minutes, 1 to
    /// 256 expressways, and at most 100 crashes, of two vehicles each.
    pub(crate) fn out_of_range(&self) -> Option<u8>
        ensures { result ≡ field_out self.now }
    {
        if self.vehicles < 1 || self.vehicles > 5000 {
            return Some(2);
        }
        if self.minutes < 1 || self.minutes > 1440 {
            return Some(3);
        }
        if self.xways < 1 || self.xways > 256 {
            return Some(4);
        }
        if self.crashes > 100 || 2 * self.crashes > self.vehicles {
            return Some(5);
        }
        None
    }
}
