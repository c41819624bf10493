// Making a board.
ghost use Rattle.std.specs.Prelude.{◌≡◌, ◌<◌, ◌≤◌, [], Some, drop, replicate, IfOk};
ghost use Rattle.left_right.specs.Sides.{view};
ghost use Rattle.serve_board.specs.OperationLog.{numbers_of};
ghost use Rattle.serve_board.specs.Passes.{unposted, pass_of};

use crate::board_history::BoardHistory;
use crate::front::Beginning;
use crate::named::{NamedHistory, NamedReader, NamedWriter};
use crate::naming::BoardNaming;
use crate::page::Page;
use crate::parts::{Board, NamedBoard, NamedReaders, Readers};
use crate::post::Keeping;
use crate::reader::BoardReader;
use crate::rule::{Meets, Notes};
use crate::shown::Shown;
use crate::writer::BoardWriter;
use left_right::writer::Writer;
use road_time::NoMemory;
use std::alloc::Global;
use std::marker::PhantomData;
use std::sync::Wait;

/// Makes a reader, which is told of which history the board is.
fn make_reader(writer: &mut Keeping, front: &Beginning) -> Result<BoardReader, NoMemory>
    requires { view writer.old.desk.place ≡ Some front.now.book }
    ensures shown { writer.new.desk.shown ≡ writer.old.desk.shown }
    ensures waits { (writer.new.log ≡ writer.old.log) × (writer.new.behind ≡ writer.old.behind) }
    ensures knows { view writer.new.desk.place ≡ view writer.old.desk.place }
    ensures reader { IfOk result (λ r. r ≡ pass_of front.now) }
{
    let mut reader = writer.factory().reader()?;
    reader.learn::<Notes>(writer.tell::<Notes>());
    Ok(BoardReader::new(reader, front.again()))
}

/// Makes the readers of a board, which saw nothing yet.
fn make_readers(
    alloc: Global,
    writer: &mut Keeping,
    front: &Beginning,
    count: u8,
) -> Result<Readers, NoMemory>
    requires { view writer.old.desk.place ≡ Some front.now.book }
    ensures shown { writer.new.desk.shown ≡ writer.old.desk.shown }
    ensures waits { (writer.new.log ≡ writer.old.log) × (writer.new.behind ≡ writer.old.behind) }
    ensures readers { IfOk result (λ rs. rs ≡ replicate count (pass_of front.now)) }
{
    let mut items = Vec::with_capacity(alloc, count as usize)?;
    for _ in 0..count {
        items.push(make_reader(writer, front)?)?;
    }
    Ok(Readers::from_vec(items))
}

/// Makes the two copies, with a history of no operation, and shows the first. So the writer knows of which history the
/// page is.
fn open_writer<R: Wait>(
    rt: &R,
    alloc: Global,
    front: &Beginning,
    readers: usize,
) -> Result<Keeping, NoMemory>
    requires readers { (0 < readers) × (readers ≤ 64) }
    requires none { front.now.log ≡ [] }
    ensures shown { IfOk result (λ w. w.desk.shown.value.front ≡ front.now) }
    ensures waits { IfOk result (λ w. drop w.behind w.log.items ≡ []) }
    ensures knows { IfOk result (λ w. view w.desk.place ≡ Some front.now.book) }
{
    let first = Page {
        shown: Shown::new(alloc),
        front: front.again(),
    };
    let second = Page {
        shown: Shown::new(alloc),
        front: front.again(),
    };
    let writer: Keeping = Writer::new(alloc, first, second, readers)?;
    let (writer, met) = writer.publish_as::<Meets, R>(rt);
    if met.is_err() {
        drop(writer.take(rt));
        return Err(NoMemory);
    }
    Ok(writer)
}

/// Makes a board on which nothing is published, with 1 to 64 readers. The one error is want of memory.
pub fn board<R: Wait + Drop>(rt: R, alloc: Global, readers: u8) -> Result<Board<R>, NoMemory>
    requires { (0 < readers) × (readers ≤ 64) }
    ensures writer { IfOk result (λ b. b.writer.posted ≡ unposted) }
    ensures readers { IfOk result (λ b. b.readers ≡ replicate readers (record { board = b.writer.board; seen = [] })) }
{
    let (head, tip) = BoardHistory::new().into_parts();
    let Some(tip) = tip else {
        return Err(NoMemory);
    };
    let front = tip.front();
    let mut writer = open_writer(&rt, alloc, &front, readers as usize)?;
    match make_readers(alloc, &mut writer, &front, readers) {
        Ok(readers) => Ok(Board {
            writer: BoardWriter::new(rt, alloc, writer, head, tip),
            readers,
        }),
        Err(error) => {
            drop(writer.take(&rt));
            Err(error)
        }
    }
}

/// Makes the readers of the board of this name, which saw nothing yet.
fn make_named<J: BoardNaming>(
    alloc: Global,
    writer: &mut Keeping,
    front: &Beginning,
    count: u8,
) -> Result<NamedReaders<J>, NoMemory>
    requires board { view writer.old.desk.place ≡ Some front.now.book }
    requires named { numbers_of front.now.book ≡ J.board }
    ensures shown { writer.new.desk.shown ≡ writer.old.desk.shown }
    ensures waits { (writer.new.log ≡ writer.old.log) × (writer.new.behind ≡ writer.old.behind) }
    ensures readers { IfOk result (λ rs. rs ≡ replicate count (pass_of front.now)) }
{
    let mut items = Vec::with_capacity(alloc, count as usize)?;
    for _ in 0..count {
        items.push(NamedReader::new(make_reader(writer, front)?))?;
    }
    Ok(NamedReaders::from_vec(items))
}

/// Makes the board of this name, of a history that was opened before, as `board` does.
pub fn named_board<J: BoardNaming, R: Wait + Drop>(
    rt: R,
    alloc: Global,
    history: NamedHistory<J>,
    readers: u8,
) -> Result<NamedBoard<J, R>, NoMemory>
    requires { (0 < readers) × (readers ≤ 64) }
    ensures writer { IfOk result (λ b. b.writer.writer ≡ record { board = J.board; posted = unposted }) }
    ensures readers { IfOk result (λ b. b.readers ≡ replicate readers (record { board = J.board; seen = [] })) }
{
    let (head, tip) = history.into_history().into_parts();
    let Some(tip) = tip else {
        return Err(NoMemory);
    };
    let front = tip.front();
    let mut writer = open_writer(&rt, alloc, &front, readers as usize)?;
    match make_named::<J>(alloc, &mut writer, &front, readers) {
        Ok(readers) => Ok(NamedBoard {
            writer: NamedWriter {
                writer: BoardWriter::new(rt, alloc, writer, head, tip),
                of: PhantomData,
            },
            readers,
        }),
        Err(error) => {
            drop(writer.take(&rt));
            Err(error)
        }
    }
}
