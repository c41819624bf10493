// A desk that loops share.
ghost use Rattle.std.specs.Prelude.{◌≡◌, ◌≤◌};
ghost use Rattle.road_time.specs.Fits.{IsLimits};

use crate::attending::attend;
use day_plan::Plan;
use keep_office::Keeper;
use road_io::TwoWay;
use road_time::Limits;
use serve_board::BoardNaming;
use serve_desk::{ImportDesk, Kept, Naming, Routes, Seat};
use serve_loops::{Host, Turn};
use std::alloc::Global;
use std::sync::{Mutex, Wait};
use std::thread::Threads;
use ways_crews::Crew;

/// A desk that loops in many threads share. It runs a session on each connection. Its keeper has a lock of its own,
/// which is taken for one call at a time; a POST takes that of the imports too, until its day is imported. Beside the
/// locks lie the routes, by which all sessions go, and by which plan and within which limits a day is worked. Its
/// readers are of the board of its writer, and their places in the history of its keeper. `S` is the type of the routes, and is always `Routes`: as a parameter it is
/// shown to cross threads by itself.
pub struct SharedDesk<
    J: Naming + BoardNaming,
    K: Keeper,
    C: Crew,
    R: Wait + Threads + Drop + Copy,
    S,
> {
    rt: R,
    pub(crate) plan: Plan,
    pub(crate) limits: Limits,
    routes: S,
    keeper: Mutex<Kept<J, K>>,
    imports: Mutex<ImportDesk<J, C, R>>,
    ghost some: { 1 ≤ plan.width },
    ghost few: { plan.width ≤ 64 },
    ghost within: { IsLimits limits },
}

impl<J: Naming + BoardNaming, K: Keeper, C: Crew, R: Wait + Threads + Drop + Copy> SharedDesk<
    J,
    K,
    C,
    R,
    Routes,
> {
    /// Puts a keeper and the part of a desk that imports under a lock each, and the plan, the limits and the routes
    /// beside them.
    pub(crate) fn new(
        rt: R,
        plan: Plan,
        limits: Limits,
        routes: Routes,
        keeper: Kept<J, K>,
        imports: ImportDesk<J, C, R>,
    ) -> Self
        requires some { 1 ≤ plan.width }
        requires few { plan.width ≤ 64 }
        requires within { IsLimits limits }
        ensures works { result.plan ≡ plan }
        ensures bounds { result.limits ≡ limits }
    {
        SharedDesk {
            rt,
            plan,
            limits,
            routes,
            keeper: Mutex::new(keeper),
            imports: Mutex::new(imports),
        }
    }

    /// Takes the keeper and the part that imports out of their locks.
    pub(crate) fn into_parts(self) -> (Kept<J, K>, ImportDesk<J, C, R>) {
        let SharedDesk {
            rt: _,
            plan: _,
            limits: _,
            routes: _,
            keeper,
            imports,
        } = self;
        (keeper.into_inner(), imports.into_inner())
    }
}

impl<J: Naming + BoardNaming, K: Keeper, C: Crew, R: Wait + Threads + Drop + Copy> Host<Seat<J, K>>
    for SharedDesk<J, K, C, R, Routes> {
    ghost use Rattle.serve_desk.specs.Seats.{Follows, stays as seat_stays, follows_on};
    ghost use Rattle.serve_top.specs.Attends.{Attends};

    ghost attends = { λ desk p q old new.
        Attends K.told K.faults K.refuses C.exact desk.limits p q old new };

    ghost follows = { Follows };

    fn attend<L: TwoWay, T: Turn>(
        &self,
        alloc: Global,
        line: &mut L,
        turn: &mut T,
        seat: &mut Seat<J, K>,
    ) {
        attend(
            self.rt,
            alloc,
            self.plan,
            self.limits,
            &self.routes,
            &self.keeper,
            &self.imports,
            line,
            turn,
            seat,
        );
    }

    ghost stays = { seat_stays };

    ghost goes_on = { follows_on };
}
