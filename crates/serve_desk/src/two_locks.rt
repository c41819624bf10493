// A desk that many sessions share, whose keeper lies under a lock of its own.
ghost use Rattle.std.specs.Prelude.{◌≡◌, ◌≢◌, ◌≤◌, ◌<◌, false, length};
ghost use Rattle.road_io.specs.Faults.{Rose};
ghost use Rattle.road_io.specs.Plans.{NeverFails};
ghost use Rattle.road_io.specs.Rooms.{Endless};
ghost use Rattle.serve_requests.specs.ReadRequests.{IsAsked};
ghost use Rattle.serve_requests.specs.declared.session_end.SessionEnd.TheVariants.{Answered, LinkFault};
ghost use Rattle.serve_desk.specs.Answers.{TellsFault, wire_of};
ghost use Rattle.serve_desk.specs.Desk.{IsOfKept};
ghost use Rattle.serve_desk.specs.Reading.{Finishes, FitsRead, IsStopped};
ghost use Rattle.serve_desk.specs.Seats.{Follows, seated};
ghost use Rattle.serve_desk.specs.Shared.{AnswersPost, AnswersShared, ImportsShared};
ghost use Rattle.serve_desk.specs.declared.imported.ReadTo.TheVariants as reading;
ghost use Rattle.day_import.specs.declared.outcomes.AnsweredDay.{AnsweredDay};
ghost use Rattle.day_import.specs.declared.outcomes.Outcome.TheVariants as outcomes;
ghost use Rattle.day_import.specs.declared.outcomes.Outcome.TheVariants.{ReadFault, WriteFault, KeeperFault};

use crate::answers::answer_page;
use crate::clerk::Clerk;
use crate::days_shared::share_days;
use crate::held_import::import_held;
use crate::history::Naming;
use crate::import_desk::ImportDesk;
use crate::imported::Imported;
use crate::kept::Kept;
use crate::notices_shared::answer_notices_shared;
use crate::place::Place;
use crate::posting::finish_import;
use crate::seat::Seat;
use crate::shared::SharedKeeper;
use crate::shared_answers::{share_day, share_health, share_spent, share_vehicle};
use crate::work::{DayWork, Work};
use keep_office::Keeper;
use road_io::{Link, TwoWay};
use serve_board::{BoardNaming, NamedReader};
use serve_loops::Turn;
use serve_requests::{Asked, SessionEnd};
use std::alloc::Global;
use std::marker::Brand;
use std::sync::{Mutex, Wait};
use std::thread::Threads;
use ways_crews::Crew;

/// Takes the lock of the imports for a POST until its day is imported, and the lock of the keeper for one call at a
/// time: so who asks for what is kept waits for no POST, and POSTs wait for one another's imports alone. The turn is
/// given back once a day is imported. A POST tells the reader of its session all that is published once its day is
/// imported, and its seat goes on to the place of what was kept then.
#[derive(Drop)]
pub struct TwoLocks<
    'a,
    J: Naming + BoardNaming,
    K: Keeper,
    C: Crew,
    R: Wait + Threads + Drop,
    T: Turn,
> {
    pub rt: R,
    pub work: Work,
    pub keeper: &'a Mutex<Kept<J, K>>,
    pub imports: &'a Mutex<ImportDesk<J, C, R>>,
    pub turn: &'a mut T,
}

/// Does what is left of a POST whose turn is over.
fn finish_after<L: Link, T: Turn>(
    alloc: Global,
    imported: Imported<'_>,
    turn: &T,
    link: &mut L,
) -> SessionEnd
    requires over { T.held turn.now ≡ false }
    requires fits { FitsRead imported.early.now imported.read }
    requires read { imported.outcome ≡ ReadFault → IsStopped imported.read }
    requires written { imported.outcome ≢ WriteFault }
    requires kept { (day : AnsweredDay) → imported.outcome ≢ outcomes.Answered day }
    ensures ends { Finishes imported.entry.early.now imported.entry.outcome
        (wire_of (L.left link.old) (L.plan link.old) (L.written link.old) (L.room link.old))
        (wire_of (L.left link.new) (L.plan link.new) (L.written link.new) (L.room link.new))
        imported.entry.read result }
    ensures unavailable { result ≡ Answered 503 → imported.entry.outcome ≡ KeeperFault }
    ensures told { imported.entry.outcome ≡ KeeperFault → TellsFault result }
    ensures sure { imported.entry.read ≢ reading.LinkFault → NeverFails (L.plan link.old)
        → L.room link.old ≡ Endless → result ≢ LinkFault }
    ensures cause { imported.entry.read ≢ reading.LinkFault → result ≡ LinkFault
        → Rose (L.faults link.old) (L.faults link.new) }
    ensures later { L.faults link.old ≤ L.faults link.new }
{
    finish_import(alloc, imported, link)
}

/// Imports the day of a POST with the imports locked, over what is kept then, and tells the reader all that is published
/// then. What was kept comes next in the history, and the place goes on to it. Once the imports are not locked, and its
/// turn is over, the rest of its body is read, and it is answered.
fn import_shared<
    'a,
    L: Link,
    J: Naming + BoardNaming,
    K: Keeper,
    C: Crew,
    R: Wait + Threads + Drop,
    T: Turn,
>(
    rt: &R,
    alloc: Global,
    work: DayWork,
    imports: &Mutex<ImportDesk<J, C, R>>,
    turn: &mut T,
    early: &[u8],
    count: u64,
    keeper: &mut SharedKeeper<'a, J, K, R>,
    link: &mut L,
    reader: &mut NamedReader<J>,
    place: &mut Place<J, K>,
) -> SessionEnd
    requires few { length early.now ≤ count }
    ensures posts { AnswersPost count early.now
        (wire_of (L.left link.old) (L.plan link.old) (L.written link.old) (L.room link.old))
        (wire_of (L.left link.new) (L.plan link.new) (L.written link.new) (L.room link.new)) result }
    ensures imports { ImportsShared K.told K.refuses C.exact work.limits work.day count early.now
        (seated reader.old place.old.seen.log) (seated reader.new place.new.seen.log)
        (wire_of (L.left link.old) (L.plan link.old) (L.written link.old) (L.room link.old))
        (wire_of (L.left link.new) (L.plan link.new) (L.written link.new) (L.room link.new)) result }
    ensures follows { Follows (seated reader.old place.old.seen.log) (seated reader.new place.new.seen.log) }
    ensures unavailable { result ≡ Answered 503 → Rose keeper.old.faults keeper.new.faults }
    ensures failed { keeper.old.faults < keeper.new.faults → TellsFault result }
    ensures sure { NeverFails (L.plan link.old) → L.room link.old ≡ Endless → result ≢ LinkFault }
    ensures cause { result ≡ LinkFault → Rose (L.faults link.old) (L.faults link.new) }
    ensures later { L.faults link.old ≤ L.faults link.new }
{
    let mut locked = imports.lock(rt);
    let first = keeper.hold_behind(place);
    let desk = &mut *locked;
    let (imported, last) = import_held::<L, J, K, C, R, Brand>(
        alloc, work, desk, early, count, keeper, first, link,
    );
    desk.teach(reader);
    drop(locked);
    *place = last;
    turn.over();
    finish_after(alloc, imported, turn, link)
}

/// Answers a request of what is kept: of a day or an amount by the keeper alone, a POST with the imports
/// locked until its day is imported.
fn answer_shared<
    'a,
    L: TwoWay,
    J: Naming + BoardNaming,
    K: Keeper,
    C: Crew,
    R: Wait + Threads + Drop,
    T: Turn,
>(
    rt: &R,
    alloc: Global,
    work: &Work,
    imports: &Mutex<ImportDesk<J, C, R>>,
    turn: &mut T,
    asked: &Asked,
    keeper: &mut SharedKeeper<'a, J, K, R>,
    link: &mut L,
    reader: &mut NamedReader<J>,
    place: &mut Place<J, K>,
) -> SessionEnd
    requires asked { IsAsked asked.now }
    requires kept { IsOfKept asked.now }
    ensures shared { AnswersShared K.told K.faults K.refuses C.exact work.now.limits asked.now
        (seated reader.old place.old.seen.log) (seated reader.new place.new.seen.log)
        (wire_of (L.left link.old) (L.plan link.old) (L.written link.old) (L.room link.old))
        (wire_of (L.left link.new) (L.plan link.new) (L.written link.new) (L.room link.new)) result }
    ensures follows { Follows (seated reader.old place.old.seen.log) (seated reader.new place.new.seen.log) }
    ensures unavailable { result ≡ Answered 503
        → Rose (⟦<SharedKeeper<'a, J, K, R> as Keeper>⟧.faults keeper.old)
        (⟦<SharedKeeper<'a, J, K, R> as Keeper>⟧.faults keeper.new) }
    ensures failed { ⟦<SharedKeeper<'a, J, K, R> as Keeper>⟧.faults keeper.old
        < ⟦<SharedKeeper<'a, J, K, R> as Keeper>⟧.faults keeper.new
        → TellsFault result }
    ensures sure { NeverFails (L.plan link.old) → L.room link.old ≡ Endless → result ≢ LinkFault }
    ensures cause { result ≡ LinkFault → Rose (L.faults link.old) (L.faults link.new) }
    ensures later { L.faults link.old ≤ L.faults link.new }
{
    match asked {
        Asked::Day(day) => share_day(alloc, *day, keeper, link),
        Asked::Spent { day, xway, vid } => share_spent(alloc, *day, *xway, *vid, keeper, link),
        Asked::Vehicle { vid, from, to } => share_vehicle(alloc, *vid, *from, *to, keeper, link),
        Asked::Days => share_days(alloc, keeper, link),
        Asked::Page => answer_page(alloc, link),
        Asked::Health => share_health(alloc, keeper, link),
        Asked::Import { day, length, early } => import_shared(
            rt,
            alloc,
            DayWork {
                day: *day,
                plan: work.plan,
                limits: work.limits,
            },
            imports,
            turn,
            early.items(),
            *length,
            keeper,
            link,
            reader,
            place,
        ),
        Asked::Answers { day, length, early } => answer_notices_shared(
            rt,
            alloc,
            DayWork {
                day: *day,
                plan: work.plan,
                limits: work.limits,
            },
            imports,
            turn,
            early.items(),
            *length,
            keeper,
            link,
        ),
        Asked::Live(_) => unreachable!(),
        Asked::LiveTotal => unreachable!(),
    }
}

impl<'a, J: Naming + BoardNaming, K: Keeper, C: Crew, R: Wait + Threads + Drop, T: Turn> Clerk<J, K>
    for TwoLocks<'a, J, K, C, R, T> {
    ghost use Rattle.serve_desk.specs.Shared.{AnswersShared};

    ghost answers = { λ clerk asked p q old new end.
        AnswersShared K.told K.faults K.refuses C.exact clerk.work.limits asked p q old new end };

    fn answer<L: TwoWay>(
        &mut self,
        alloc: Global,
        asked: Asked,
        link: &mut L,
        seat: &mut Seat<J, K>,
    ) -> SessionEnd {
        let mut keeper = SharedKeeper::new(&self.rt, self.keeper);
        answer_shared(
            &self.rt,
            alloc,
            &self.work,
            self.imports,
            self.turn,
            &asked,
            &mut keeper,
            link,
            &mut seat.reader,
            &mut seat.place,
        )
    }
}
