// The flows of the last six minutes of a stretch, and the mean of their averages.
ghost use Rattle.std.specs.Prelude.{◌≡◌, ◌≤◌, ◌<◌, ◌+◌, ◌*◌, ◌^◌, ℕ, All, length, map, IfSome};
ghost use Rattle.road_time.specs.Lav.{lav_of};
ghost use Rattle.ways_expressway.specs.Parts.{mean12 as mean12_of, more as more_of, grown as grown_of, ring_flow};
ghost use Rattle.ways_expressway.specs.Parts.{shown_flow, no_flow, IsSmall};

use crate::this_minute::{Sum, mean12, more};
use road_time::Frac;

/// The cars of a stretch in a minute, and the sum of their mean speeds in twelfths of a mile per hour.
#[derive(Clone, Copy, Debug, PartialEq, Eq)]
pub struct Flow {
    pub cars: u32,
    pub speeds12: u32,
}

impl Flow {
    /// No car.
    pub const NONE: Flow = Flow {
        cars: 0,
        speeds12: 0,
    };
}

/// A flow and its minute.
#[derive(Clone, Copy, Debug, PartialEq, Eq)]
pub struct RingSlot {
    pub minute: u32,
    pub flow: Flow,
}

/// The flows of the last six minutes of a stretch, each in the slot of its minute.
#[derive(Clone, Copy, Debug, PartialEq, Eq)]
pub struct Ring {
    pub slots: [RingSlot; 6],
}

/// A flow with one more note of a vehicle, of which these speeds were noted before.
#[inline(always)]
pub fn grown(flow: Flow, before: Sum, spd: u8) -> Flow
    requires cars { flow.cars ≤ 500000 }
    requires speeds { flow.speeds12 ≤ 600000000 }
    requires total { before.total ≤ 300 }
    requires count { before.count ≤ 3 }
    requires slow { spd ≤ 100 }
    requires part { mean12_of before ≤ flow.speeds12 + mean12_of (more_of before spd) }
    ensures { result ≡ grown_of flow before spd }
{
    let added = mean12(more(before, spd));
    Flow {
        cars: if before.count == 0 {
            flow.cars + 1
        } else {
            flow.cars
        },
        speeds12: flow.speeds12 + added - mean12(before),
    }
}

impl Ring {
    #[inline(always)]
    pub fn new() -> Ring
        ensures { (m : ℕ) → ring_flow result m ≡ no_flow }
    {
        Ring {
            slots: [RingSlot {
                minute: 0,
                flow: Flow::NONE,
            }; 6],
        }
    }

    /// The flow of a minute, if it is kept.
    #[inline(always)]
    pub fn at(&self, minute: u32) -> Flow
        ensures { result ≡ ring_flow self.now minute }
    {
        let slot = self.slots[(minute % 6) as usize];
        if slot.minute == minute {
            slot.flow
        } else {
            Flow::NONE
        }
    }

    /// Keeps the flow of a minute, in place of the one six minutes before.
    #[inline(always)]
    pub fn put(&mut self, minute: u32, flow: Flow)
        ensures here { ring_flow self.new minute ≡ flow }
        ensures window { (m : ℕ) → minute < m + 6 → m < minute → ring_flow self.new m ≡ ring_flow self.old m }
        ensures later { (m : ℕ) → minute < m → ring_flow self.old m ≡ no_flow → ring_flow self.new m ≡ no_flow }
        ensures small { IsSmall flow → ((m : ℕ) → IsSmall (ring_flow self.old m)) → (m : ℕ)
            → IsSmall (ring_flow self.new m) }
    {
        self.slots[(minute % 6) as usize] = RingSlot { minute, flow };
    }
}

/// The mean of the averages of the flows that have cars.
#[inline(always)]
pub fn mean_average(flows: &[Flow]) -> Option<Frac>
    requires few { length flows.now ≤ 5 }
    requires small { All IsSmall flows.now }
    ensures average { IfSome result (λ f. (1 ≤ f.den) × (f.den ≤ 2 ^ 101) × (f.num ≤ 100 * f.den)) }
    ensures exact { result ≡ lav_of (map shown_flow flows.now) }
{
    let mut num: u128 = 0;
    let mut den: u128 = 1;
    let mut busy: u128 = 0;
    for flow in flows {
        if flow.cars > 0 {
            num = num * u128::from(flow.cars) + u128::from(flow.speeds12) * den;
            den *= u128::from(flow.cars);
            busy += 1;
        }
    }
    if busy == 0 {
        None
    } else {
        Some(Frac {
            num,
            den: 12 * busy * den,
        })
    }
}
