// The part of a desk that imports.
ghost use Rattle.std.specs.Prelude.{◌≡◌, ◌≢◌, ◌≤◌, ◌+◌, ◌⊎◌, ℕ, List, [], Some, None, length};
ghost use Rattle.std.specs.Io.KnownBytes.{prepend_known};
ghost use Rattle.road_io.specs.Plans.{NeverFails};
ghost use Rattle.road_io.specs.Blame.{FaultsByPlan};
ghost use Rattle.keep_office.specs.Office.{Office, record_of, last_day};
ghost use Rattle.keep_office.specs.declared.kept.DayRecord.{DayRecord};
ghost use Rattle.day_import.specs.Imports.{most_imported};
ghost use Rattle.day_import.specs.declared.outcomes.AnsweredDay.{AnsweredDay};
ghost use Rattle.day_import.specs.declared.outcomes.Outcome.TheVariants as outcomes;
ghost use Rattle.day_import.specs.declared.outcomes.Outcome.TheVariants.{Stored, ReadFault, WriteFault, KeeperFault};
ghost use Rattle.serve_requests.specs.AskedBodies.{filled};
ghost use Rattle.serve_desk.specs.declared.imported.ReadTo.TheVariants.{Open};
ghost use Rattle.serve_desk.specs.Imports.{Imports};
ghost use Rattle.serve_desk.specs.Reading.{IsReadTo, HasReadCause, IsStopped, HasNoneLeft};
ghost use Rattle.serve_desk.specs.Sessions.{IsTaught, Learns};

use crate::imported::Imported;
use crate::importing::import_only;
use crate::work::DayWork;
use keep_office::Keeper;
use road_io::Link;
use serve_board::laws::published_law;
use serve_board::{BoardNaming, BoardWriter, NamedReader, NamedWriter};
use std::alloc::Global;
use std::marker::PhantomData;
use std::sync::Wait;
use std::thread::Threads;
use ways_crews::Crew;

/// Tells a reader of a board all that is published on it.
fn learn_all<J: BoardNaming, R: Wait + Drop>(
    reader: &mut NamedReader<J>,
    writer: &mut BoardWriter<R>,
)
    requires named { writer.old.board ≡ J.board }
    ensures learns { Learns writer.old.posted.published reader.old reader.new }
    ensures kept { writer.new ≡ writer.old }
{
    reader.learn(writer.tell());
}

/// The part of a desk that imports: all of it but the keeper, the plan and the limits, which are handed in for each
/// import. Its writer is of the board that has this name, also where it lies under a lock.
#[derive(Drop)]
pub struct ImportDesk<J: BoardNaming, C: Crew, R: Wait + Threads + Drop> {
    pub rt: R,
    pub crew: C,
    pub writer: BoardWriter<R>,
    of: PhantomData<J>,
    ghost idle: { C.out crew ≡ [] },
    ghost named: { writer.board ≡ J.board },
}

impl<J: BoardNaming, C: Crew, R: Wait + Threads + Drop> ImportDesk<J, C, R> {
    /// A crew that has no job out, and the writer of the board of this name.
    pub fn new(rt: R, crew: C, writer: NamedWriter<J, R>) -> Self
        requires idle { C.out crew ≡ [] }
        ensures crew { result.crew ≡ crew }
    {
        ImportDesk {
            rt,
            crew,
            writer: writer.into_writer(),
            of: PhantomData,
        }
    }

    /// Tells a reader of the board all that is published, and sees that it knows nothing else.
    pub(crate) fn teach(&mut self, reader: &mut NamedReader<J>)
        ensures taught { IsTaught self.old.writer.posted reader.old reader.new }
        ensures kept { self.new.writer ≡ self.old.writer }
    {
        learn_all(reader, &mut self.writer);
        published_law(&mut self.writer, reader.plain());
    }

    /// Imports a day of the body of a POST, publishes its charges, and reads no more of the body than that takes. What
    /// is left to do of the request needs its link alone.
    pub fn import<'b, L: Link, K: Keeper>(
        &mut self,
        alloc: Global,
        work: DayWork,
        early: &'b [u8],
        count: u64,
        keeper: &mut K,
        link: &mut L,
    ) -> Imported<'b>
        requires few { length early.now ≤ count }
        ensures imports { (all : List ℕ) (o : Office) → prepend_known early.now (L.left link.old) ≡ Some all
            → K.told keeper.old ≡ Some o → Imports K.refuses C.exact work.day work.limits (filled count all) o
            (K.told keeper.new) self.old.writer.posted (Some self.new.writer.posted) result.outcome }
        ensures reads { IsReadTo count (prepend_known early.now (L.left link.old)) result.early.now (L.left link.new)
            result.read }
        ensures few { (all : List ℕ) (o : Office) (left : ℕ) → prepend_known early.now (L.left link.old) ≡ Some all
            → K.told keeper.old ≡ Some o → result.read ≡ Open left
            → count ≤ left + most_imported (record_of o work.day) work.limits }
        ensures unread { (o : Office) → K.told keeper.old ≡ Some o → record_of o work.day ≡ None → work.day ≤ last_day o
            → (L.left link.new ≡ L.left link.old) × (result.read ≡ Open count) × (result.early.now ≡ early.now) }
        ensures read { result.outcome ≡ ReadFault → IsStopped result.read }
        ensures stored { (all : List ℕ) (kept : DayRecord) → prepend_known early.now (L.left link.old) ≡ Some all
            → result.outcome ≡ Stored kept → HasNoneLeft result.read }
        ensures read_first { (all : List ℕ) → prepend_known early.now (L.left link.old) ≡ Some all
            → (K.told keeper.new ≡ K.told keeper.old) ⊎ HasNoneLeft result.read }
        ensures crew { C.which self.new.crew ≡ C.which self.old.crew }
        ensures board { self.new.writer.board ≡ self.old.writer.board }
        ensures unwritten { L.written link.new ≡ L.written link.old }
        ensures room_kept { L.room link.new ≡ L.room link.old }
        ensures link_cause { HasReadCause (L.plan link.old) (L.faults link.old) (L.faults link.new) result.read }
        ensures link_later { L.faults link.old ≤ L.faults link.new }
        ensures link_sure { NeverFails (L.plan link.old) → NeverFails (L.plan link.new) }
        ensures unfailed { result.outcome ≢ WriteFault }
        ensures posted { (day : AnsweredDay) → result.outcome ≢ outcomes.Answered day }
        ensures keeper { FaultsByPlan (K.faults keeper.old) (K.faults keeper.new) (K.plan keeper.old)
            (result.outcome ≡ KeeperFault) }
    {
        import_only(
            &self.rt,
            alloc,
            work,
            early,
            count,
            link,
            keeper,
            &mut self.crew,
            &mut self.writer,
        )
    }
}

impl<J: BoardNaming, C: Crew + Drop, R: Wait + Threads + Drop> ImportDesk<J, C, R> {
    /// Ends the writer of the board. It may wait for readers that are in the middle of an answer.
    pub fn end(self) {
        let ImportDesk {
            rt: _,
            crew: _,
            writer,
            of: _,
        } = self;
        writer.end();
    }
}
