// A keeper in memory that may begin anew: the type.
ghost use Rattle.std.specs.Prelude.{◌≡◌, IfOk};
ghost use Rattle.std.proofs.Props.{props};
ghost use Rattle.road_time.specs.Tariffs.{IsTariffs};
ghost use Rattle.keep_office.specs.Office.{nothing_kept};

use crate::memory::MemKeeper;
use road_time::{NoMemory, Tariffs};
use std::alloc::Global;

/// A keeper in memory that may begin anew. Its days, amounts and history lie in another keeper, which gives way to a
/// new one then; with it go the failures that were planned.
#[derive(Drop)]
pub struct AnewKeeper {
    pub(crate) alloc: Global,
    pub(crate) kept: MemKeeper,
    pub(crate) tariffs: Tariffs,
    pub(crate) faults: u64,
    ghost valid: { IsTariffs tariffs } by { Prim.hlevel props },
}

impl AnewKeeper {
    ghost use Rattle.keep_office.specs.InMemory.{kept_anew};

    /// Keeps nothing yet, and fails at the calls whose numbers from 0 stand in `fails`. Those of tariffs are not numbered,
    /// and do not fail.
    pub fn new(alloc: Global, fails: &[u32]) -> Result<AnewKeeper, NoMemory>
        ensures kept { IfOk result (λ k. kept_anew k ≡ nothing_kept) }
        ensures faultless { IfOk result (λ k. k.faults ≡ 0) }
    {
        let kept = MemKeeper::new(alloc, fails)?;
        Ok(AnewKeeper {
            alloc,
            kept,
            tariffs: Tariffs::new(alloc),
            faults: 0,
        })
    }
}
