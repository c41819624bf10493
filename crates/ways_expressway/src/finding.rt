// What a worker finds.
ghost use Rattle.std.specs.Prelude.{◌≡◌};

use std::marker::Model;

/// What the vehicle of the report at a position is to be told: the average in whole miles per hour, -1 for none, the
/// toll of the stretch that it enters, and the segment of the nearest accident ahead. Fields lie in memory as they are
/// declared: in this order 16 bytes hold them.
#[derive(Clone, Copy, Debug, PartialEq, Eq)]
pub struct Finding {
    pub toll: u64,
    pub position: u32,
    pub lav: i16,
    pub alert: Option<u8>,
}

/// The findings of a job, in the order of its events. Contracts see the list.
#[derive(Drop)]
pub struct Findings {
    items: Vec<Finding>,
}

impl Model for Findings {
    ghost use Rattle.std.specs.Prelude.{List};
    ghost use Rattle.ways_expressway.specs.declared.finding.Finding.{Finding};

    ghost Value = { List Finding };

    ghost view = { λ f. f.items.items };
}

impl Findings {
    pub fn from_vec(items: Vec<Finding>) -> Self
        ensures { result ≡ items.items }
    {
        Findings { items }
    }

    pub fn into_vec(self) -> Vec<Finding>
        ensures { result.items ≡ self }
    {
        self.items
    }

    pub fn items(&self) -> &[Finding]
        ensures { result.now ≡ self.now }
    {
        self.items.as_slice()
    }
}
