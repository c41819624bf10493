// The writer of a board.
ghost use Rattle.std.specs.Prelude.{◌≡◌, ◌^◌, ◌<◌, Some, [], drop, OnOk, OnErr};
ghost use Rattle.day_floor.specs.Operations.{posted_with, IsRefused};
ghost use Rattle.day_floor.specs.Boards.{board_after, all_accounts};
ghost use Rattle.serve_board.specs.OperationLog.{head_of, numbers_of};
ghost use Rattle.serve_board.specs.Changes.{operation_of};
ghost use Rattle.serve_board.specs.Passes.{unposted, WasPosted};

use crate::change::Change;
use crate::operation_log::Head;
use crate::post::{Keeping, submit};
use crate::reader::BoardReader;
use crate::tip::Tip;
use crate::told::Told;
use day_floor::{Charged, Publisher};
use road_time::NoMemory;
use std::alloc::Global;
use std::marker::Model;
use std::sync::Wait;

/// Publishes on a board. Contracts see of which board it is, and what it published and queued. Letting it go ends it.
pub struct BoardWriter<R: Wait + Drop> {
    rt: R,
    alloc: Global,
    writer: Option<Keeping>,
    head: Head,
    // All that is published and queued.
    tip: Option<Tip>,
}

impl<R: Wait + Drop> Model for BoardWriter<R> {
    ghost use Rattle.std.specs.Prelude.{◌≡◌, [], Some, drop};
    ghost use Rattle.std.specs.Option.{option_map, unwrap_or};
    ghost use Rattle.serve_board.specs.OperationLog.{head_of, numbers_of};
    ghost use Rattle.serve_board.specs.Changes.{posted_on};
    ghost use Rattle.serve_board.specs.Passes.{BoardWriting, writing_code, unposted, HasAll};

    ghost Value = { BoardWriting };

    ghost coded = { writing_code };

    ghost view = { λ w. record {
      board = numbers_of w.head.book;
      posted = unwrap_or
          (option_map (λ s. posted_on s.desk.shown.value (drop s.behind s.log.items)) w.writer) unposted;
    } };

    ghost invariant = { λ w. (w.head ≡ head_of w.head.book)
        × (option_map (λ s. s.desk.shown.value.front.book) w.writer ≡ Some w.head.book)
        × (option_map (λ t. t.book) w.tip ≡ Some w.head.book)
        × HasAll (unwrap_or (option_map (λ t. t.log) w.tip) []) (unwrap_or (option_map
        (λ s. posted_on s.desk.shown.value (drop s.behind s.log.items)) w.writer) unposted) };
}

impl<R: Wait + Drop> BoardWriter<R> {
    pub(crate) fn new(rt: R, alloc: Global, writer: Keeping, head: Head, tip: Tip) -> Self
        requires head { head ≡ head_of tip.book }
        requires none { tip.log ≡ [] }
        requires shown { writer.desk.shown.value.front ≡ tip }
        requires waits { drop writer.behind writer.log.items ≡ [] }
        ensures { result ≡ record { board = numbers_of tip.book; posted = unposted } }
    {
        BoardWriter {
            rt,
            alloc,
            writer: Some(writer),
            head,
            tip: Some(tip),
        }
    }

    /// Publishes what is queued, and a change.
    fn post(&mut self, change: Change) -> Result<(), NoMemory>
        requires { all_accounts (board_after (posted_with (operation_of change) self.old.posted).published) < 2 ^ 63 }
        ensures board { self.new.board ≡ self.old.board }
        ensures ok { OnOk result (self.new.posted ≡ posted_with (operation_of change) self.old.posted) }
        ensures err { OnErr result (IsRefused (operation_of change) (Some self.old.posted) (Some self.new.posted)) }
    {
        let Some(tip) = self.tip.take() else {
            unreachable!()
        };
        let Some(writer) = self.writer.take() else {
            unreachable!()
        };
        let (writer, tip, posted) = submit(&self.rt, writer, &self.head, tip, change);
        match self.writer.replace(writer) {
            None => {}
            Some(_) => unreachable!(),
        }
        self.tip = Some(tip);
        if posted.is_err() {
            return Err(NoMemory);
        }
        Ok(())
    }

    /// Tells all that is published.
    pub fn tell(&mut self) -> Told
        ensures kept { self.new ≡ self.old }
        ensures told { result ≡ record { board = self.old.board; all = self.old.posted.published } }
    {
        let Some(writer) = &self.writer else {
            unreachable!()
        };
        Told::of(writer.published().front.again())
    }

    /// Looks at the history of the board. A reader of the same board saw nothing that was not published and is not
    /// queued.
    pub fn cover(&mut self, reader: &BoardReader)
        requires board { reader.now.board ≡ self.old.board }
        ensures kept { self.new ≡ self.old }
        ensures posted { WasPosted self.old.posted reader.now }
    {
        let Some(tip) = self.tip.take() else {
            unreachable!()
        };
        self.tip = Some(tip.cover(&self.head, reader.front()));
    }

    /// Ends the writer. What is queued is dropped, and readers are answered `None` from now on. It may wait for
    /// readers that are in the middle of an answer.
    pub fn end(self) {
        let BoardWriter {
            rt,
            alloc: _,
            writer,
            head: _,
            tip: _,
        } = self;
        match writer {
            Some(writer) => drop(writer.take(&rt)),
            None => {}
        }
    }
}

impl<R: Wait + Drop> Drop for BoardWriter<R> {
    fn drop(self) {
        self.end();
    }
}

impl<R: Wait + Drop> Publisher for BoardWriter<R> {
    ghost use Rattle.std.specs.Prelude.{Some};

    ghost posted = { λ w. Some w.posted };

    ghost which = { λ w. w.board };

    fn begin(&mut self, day: u32) -> Result<(), NoMemory> {
        self.post(Change::Begins(day))
    }

    fn publish(&mut self, charges: &[Charged], mark: u64) -> Result<(), NoMemory> {
        let charges = Vec::from_slice(self.alloc, charges)?;
        self.post(Change::Charges(charges, mark))
    }
}
