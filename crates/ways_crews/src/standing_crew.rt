// A standing crew: its helpers take jobs from cells.
ghost use Rattle.std.specs.Prelude.{◌≡◌, ◌≢◌, ◌≤◌, ℕ, [], length, true, None, IfSome, IfNone};
ghost use Rattle.ways_expressway.specs.declared.job.Job.{Job as TheJob};
ghost use Rattle.ways_crews.specs.Told.{TellsNone};
ghost use Rattle.ways_crews.specs.Boards.{board_id};
ghost use Rattle.ways_crews.specs.Calls.{IsAt};
ghost use Rattle.ways_crews.specs.Crews.{AreFree, HoldsJob};
ghost use Rattle.ways_crews.specs.Helpers.{AreHelpersOf};
ghost use Rattle.ways_crews.specs.Views.{new_crew};

use crate::board::CellBoard;
use crate::cells::CellSeat;
use crate::crew::Crew;
use crate::finishing::finish_at;
use crate::gate::Gate;
use crate::helper::{Helper, Helpers};
use crate::job_list::{JobList, Started};
use crate::moves::raise_stop;
use crate::place::TicketPlace;
use crate::places::Ticket;
use crate::plays::Hires;
use crate::starting::start_at;
use std::alloc::Global;
use std::array;
use std::sync::Wait;
use ways_expressway::{Done, Job};

/// A crew that puts each job into a cell, for a helper to take, and waits for it there. `hired` is the number
/// of its helpers, and `places` are those of the tickets, by their numbers.
#[derive(Drop)]
pub struct StandingCrew<R, G> {
    rt: R,
    alloc: Global,
    gate: G,
    board: CellBoard,
    hired: usize,
    seat: CellSeat,
    stopped: bool,
    list: JobList,
    places: [Option<TicketPlace>; 64],
    ghost at: { IsAt (board_id board) seat },
    ghost first: { seat.id ≡ 0 },
    ghost idle: { seat.me.0.taken ≡ None },
    ghost hands: { seat.me.1 ≡ [] },
    ghost wide: { length seat.me.0.given ≡ board.count },
    ghost all: { length places ≡ 64 },
    ghost free: { AreFree places seat.me.0 board.count },
}

impl<R: Wait + Drop, G: Gate + Drop> StandingCrew<R, G> {
    /// A crew at these cells, with no job out.
    pub(crate) fn new(
        rt: R,
        alloc: Global,
        tell: bool,
        gate: G,
        board: CellBoard,
        hired: usize,
        seat: CellSeat,
    ) -> StandingCrew<R, G>
        requires at { IsAt (board_id board) seat × (seat.id ≡ 0) }
        requires new { seat.me ≡ (new_crew board.count, []) }
        ensures out { ⟦<StandingCrew<R, G> as Crew>⟧.out result ≡ [] }
        ensures jobs { TellsNone tell (⟦<StandingCrew<R, G> as Crew>⟧.jobs result) }
        ensures which { ⟦<StandingCrew<R, G> as Crew>⟧.which result ≡ (board, hired) }
    {
        StandingCrew {
            rt,
            alloc,
            gate,
            board,
            hired,
            seat,
            stopped: false,
            list: JobList::new(alloc, tell),
            places: array::from_fn(
                |_at: usize| -> Option<TicketPlace>
                    ensures { result ≡ None }
                { None },
            ),
        }
    }

    /// The jobs that it lists, none where it does not tell them.
    pub fn jobs(&self) -> &[Started]
        ensures told { IfSome (⟦<StandingCrew<R, G> as Crew>⟧.jobs self.now) (λ told. result.now ≡ told.listed) }
        ensures untold { IfNone (⟦<StandingCrew<R, G> as Crew>⟧.jobs self.now) (result.now ≡ []) }
    {
        self.list.items()
    }

    /// Raises the stop. Jobs that are started later are run at once.
    pub fn stop(&mut self)
        ensures stopped { self.new.seat.me.0.stopped ≡ true }
        ensures out { ⟦<StandingCrew<R, G> as Crew>⟧.out self.new ≡ ⟦<StandingCrew<R, G> as Crew>⟧.out self.old }
        ensures held { (n : ℕ) (j : TheJob) → ⟦<StandingCrew<R, G> as Crew>⟧.holds self.old n j
            → ⟦<StandingCrew<R, G> as Crew>⟧.holds self.new n j }
        ensures which { ⟦<StandingCrew<R, G> as Crew>⟧.which self.new ≡ ⟦<StandingCrew<R, G> as Crew>⟧.which self.old }
        ensures jobs { ⟦<StandingCrew<R, G> as Crew>⟧.jobs self.new ≡ ⟦<StandingCrew<R, G> as Crew>⟧.jobs self.old }
    {
        let count = self.board.count;
        let stop = raise_stop(self.board.cells(), &mut self.seat, count);
        self.board.call_all(&mut self.seat, stop);
        self.stopped = true;
    }

    /// Takes a helper of its own back.
    fn dismiss(&mut self, helper: Helper)
        requires { board_id helper.board ≡ board_id self.old.board }
        ensures { board_id self.new.board ≡ board_id self.old.board }
    {
        self.board
            .cells()
            .join_seat::<Hires>(&mut self.seat, helper.seat);
    }

    /// Ends the crew and its helpers. It asks that no job is out and that these are all the helpers that were
    /// made with this crew.
    pub fn close(self, mut helpers: Helpers)
        requires out { ⟦<StandingCrew<R, G> as Crew>⟧.out self ≡ [] }
        requires helpers { AreHelpersOf (⟦<StandingCrew<R, G> as Crew>⟧.which self) helpers.items }
    {
        let mut crew = self;
        while let Some(helper) = helpers.pop() {
            crew.dismiss(helper);
        }
    }
}

impl<R: Wait + Drop, G: Gate + Drop> Crew for StandingCrew<R, G> {
    ghost use Rattle.std.specs.Prelude.{true, None};
    ghost use Rattle.ways_crews.specs.Places.{out_of};
    ghost use Rattle.ways_crews.specs.Tellings.{told_by_list};
    ghost use Rattle.ways_crews.specs.Crews.{HoldsJob, is_unlisted};

    type Ticket = Ticket;

    type Name = (CellBoard, usize);

    ghost exact = { true };

    ghost out = { λ s. out_of s.places };

    ghost number = { λ t. t.number };

    ghost holds = { λ s n job. HoldsJob s.places s.seat.me.0 n job };

    ghost gave = { λ s t. Unit {0} };

    ghost which = { λ s. (s.board, s.hired) };

    ghost jobs = { λ s. told_by_list is_unlisted s.list s.places };

    ghost answers = { λ s. None };

    /// Puts the job into the first free cell. Where none is free, or after the stop, it passes the gate and
    /// runs the job.
    fn start(&mut self, job: Job) -> Ticket {
        let listed = self.list.list(&job);
        start_at(
            self.alloc,
            &self.board,
            &mut self.seat,
            &self.gate,
            self.stopped,
            &mut self.places,
            listed,
            job,
        )
    }

    /// What was done of a ticket's job. While it waits it takes ready jobs, passes the gate and runs them.
    fn finish(&mut self, ticket: Ticket) -> Done {
        finish_at(
            &self.rt,
            self.alloc,
            &self.board,
            &mut self.seat,
            &self.gate,
            &mut self.places,
            ticket,
        )
    }
}
