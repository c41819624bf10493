// A desk that is not shared: it answers what is asked of its keeper, and imports the days that are posted.
ghost use Rattle.std.specs.Prelude.{◌≡◌, ◌≢◌, ◌≤◌, ◌<◌, [], Some};
ghost use Rattle.road_io.specs.Faults.{Rose};
ghost use Rattle.road_io.specs.Plans.{NeverFails};
ghost use Rattle.road_io.specs.Rooms.{Endless};
ghost use Rattle.road_time.specs.Fits.{IsLimits};
ghost use Rattle.keep_office.specs.Office.{Office};
ghost use Rattle.serve_requests.specs.ReadRequests.{IsAsked};
ghost use Rattle.serve_requests.specs.declared.session_end.SessionEnd.TheVariants.{Answered, LinkFault};
ghost use Rattle.serve_desk.specs.Answers.{wire_of, TellsFault};
ghost use Rattle.serve_desk.specs.Imports.{state_of};
ghost use Rattle.serve_desk.specs.Desk.{AnswersKept, IsOfKept};

use crate::answers::{
    answer_day, answer_days, answer_health, answer_page, answer_spent, answer_vehicle,
};
use crate::import_desk::ImportDesk;
use crate::notices::answer_notices;
use crate::posting::answer_import;
use crate::work::DayWork;
use day_plan::Plan;
use keep_office::Keeper;
use road_io::TwoWay;
use road_time::Limits;
use serve_board::{BoardNaming, BoardWriter};
use serve_requests::{Asked, SessionEnd};
use std::alloc::Global;
use std::sync::Wait;
use std::thread::Threads;
use ways_crews::Crew;

/// What answers requests of what is kept: a keeper, the crew, plan and limits of imports, and the writer of the live
/// board, which ends with it.
#[derive(Drop)]
pub struct Desk<K: Keeper, C: Crew, R: Wait + Threads + Drop> {
    pub rt: R,
    pub keeper: K,
    pub crew: C,
    pub writer: BoardWriter<R>,
    pub plan: Plan,
    pub limits: Limits,
    ghost some: { 1 ≤ plan.width },
    ghost few: { plan.width ≤ 64 },
    ghost within: { IsLimits limits },
    ghost idle: { C.out crew ≡ [] },
}

impl<K: Keeper, C: Crew, R: Wait + Threads + Drop> Desk<K, C, R> {
    /// Answers what is asked of what is kept. A POST is an import of its body, whose charges are published.
    pub fn answer<L: TwoWay>(&mut self, alloc: Global, asked: &Asked, link: &mut L) -> SessionEnd
        requires asked { IsAsked asked.now }
        requires kept { IsOfKept asked.now }
        ensures answers { (o : Office) → K.told self.old.keeper ≡ Some o
            → AnswersKept K.refuses C.exact asked.now self.old.limits o
            (state_of (K.told self.old.keeper) (K.faults self.old.keeper) self.old.writer.posted)
            (state_of (K.told self.new.keeper) (K.faults self.new.keeper) self.new.writer.posted)
            (wire_of (L.left link.old) (L.plan link.old) (L.written link.old) (L.room link.old))
            (wire_of (L.left link.new) (L.plan link.new) (L.written link.new) (L.room link.new)) result }
        ensures unavailable { result ≡ Answered 503 → Rose (K.faults self.old.keeper) (K.faults self.new.keeper) }
        ensures failed { K.faults self.old.keeper < K.faults self.new.keeper → TellsFault result }
        ensures plan { self.new.plan ≡ self.old.plan }
        ensures limits { self.new.limits ≡ self.old.limits }
        ensures crew { C.which self.new.crew ≡ C.which self.old.crew }
        ensures board { self.new.writer.board ≡ self.old.writer.board }
        ensures sure { NeverFails (L.plan link.old) → L.room link.old ≡ Endless → result ≢ LinkFault }
        ensures cause { result ≡ LinkFault → Rose (L.faults link.old) (L.faults link.new) }
        ensures later { L.faults link.old ≤ L.faults link.new }
        ensures keeper_later { K.faults self.old.keeper ≤ K.faults self.new.keeper }
    {
        match asked {
            Asked::Day(day) => answer_day(alloc, *day, &mut self.keeper, link),
            Asked::Spent { day, xway, vid } => {
                answer_spent(alloc, *day, *xway, *vid, &mut self.keeper, link)
            }
            Asked::Vehicle { vid, from, to } => {
                answer_vehicle(alloc, *vid, *from, *to, &mut self.keeper, link)
            }
            Asked::Days => answer_days(alloc, &mut self.keeper, link),
            Asked::Page => answer_page(alloc, link),
            Asked::Health => answer_health(alloc, &mut self.keeper, link),
            Asked::Import { day, length, early } => {
                let work = DayWork {
                    day: *day,
                    plan: self.plan,
                    limits: self.limits,
                };
                answer_import(
                    &self.rt,
                    alloc,
                    work,
                    early.items(),
                    *length,
                    &mut self.keeper,
                    &mut self.crew,
                    &mut self.writer,
                    link,
                )
            }
            Asked::Answers { day, length, early } => {
                let work = DayWork {
                    day: *day,
                    plan: self.plan,
                    limits: self.limits,
                };
                answer_notices(
                    &self.rt,
                    alloc,
                    work,
                    early.items(),
                    *length,
                    &mut self.keeper,
                    &mut self.crew,
                    link,
                )
            }
            Asked::Live(_) => unreachable!(),
            Asked::LiveTotal => unreachable!(),
        }
    }
}

impl<K: Keeper, C: Crew + Drop, R: Wait + Threads + Drop> Desk<K, C, R> {
    /// Ends the writer of the board, and gives the keeper back. It may wait for readers that are in the middle of an
    /// answer.
    pub fn end(self) -> K
        ensures { result ≡ self.keeper }
    {
        let Desk {
            rt: _,
            keeper,
            crew: _,
            writer,
            plan: _,
            limits: _,
        } = self;
        writer.end();
        keeper
    }
}

/// A desk may move between threads, where its keeper, crew and runtime may, and so may the part of it that imports.
pub fn desk_moves<
    J: BoardNaming + Send,
    K: Keeper + Send,
    C: Crew + Send,
    R: Wait + Threads + Drop + Send,
>() {
    moves::<Desk<K, C, R>>();
    moves::<ImportDesk<J, C, R>>();
}

fn moves<T: Send>() {}
