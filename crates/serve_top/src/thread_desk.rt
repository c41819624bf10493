// The shared desk over a crew of threads.
ghost use Rattle.std.specs.Prelude.{◌≡◌, ◌≤◌, []};
ghost use Rattle.road_time.specs.Fits.{IsLimits};

use crate::desk_crew::DeskCrew;
use crate::shared_desk::SharedDesk;
use day_plan::Plan;
use keep_office::Keeper;
use road_time::Limits;
use serve_board::{BoardNaming, NamedReader, NamedWriter};
use serve_desk::{ImportDesk, Kept, Naming, Routes, Seat};
use std::sync::Wait;
use std::thread::Threads;
use ways_crews::{Crew, NoGate, ThreadCrew, ThreadTicket};

impl<
    J: Naming + BoardNaming + Send + Sync,
    K: Keeper + Send,
    R: Wait + Threads + Drop + Copy + Send + Sync,
> DeskCrew<Kept<J, K>, NamedWriter<J, R>, NamedReader<J>, Seat<J, K>, R> for ThreadCrew<R, NoGate>
where
    ThreadCrew<R, NoGate>: Crew<Ticket = ThreadTicket, Name = ()>,
{
    type Shared = SharedDesk<J, K, ThreadCrew<R, NoGate>, R, Routes>;

    ghost out = { λ crew. ⟦<ThreadCrew<R, NoGate> as Crew>⟧.out crew };

    ghost works = { λ desk. desk.plan };

    ghost bounds = { λ desk. desk.limits };

    fn seat(keeper: &Kept<J, K>, reader: NamedReader<J>) -> Seat<J, K> {
        keeper.seat(reader)
    }

    fn share(
        self,
        rt: R,
        keeper: Kept<J, K>,
        writer: NamedWriter<J, R>,
        plan: Plan,
        limits: Limits,
        routes: Routes,
    ) -> SharedDesk<J, K, ThreadCrew<R, NoGate>, R, Routes>
        requires idle { ⟦<ThreadCrew<R, NoGate> as Crew>⟧.out self ≡ [] }
        requires some { 1 ≤ plan.width }
        requires few { plan.width ≤ 64 }
        requires within { IsLimits limits }
        ensures works { result.plan ≡ plan }
        ensures bounds { result.limits ≡ limits }
    {
        let imports = ImportDesk::new(rt, self, writer);
        SharedDesk::new(rt, plan, limits, routes, keeper, imports)
    }

    fn end(shared: SharedDesk<J, K, ThreadCrew<R, NoGate>, R, Routes>) -> Kept<J, K> {
        let (keeper, imports) = shared.into_parts();
        imports.end();
        keeper
    }
}
