// A change on its way to the readers.
ghost use Rattle.std.specs.Prelude.{◌≡◌, ◌⊎◌, ◌^◌, ◌<◌, drop, OnOk, OnErr};
ghost use Rattle.day_floor.specs.Operations.{posted_with, queued_with};
ghost use Rattle.day_floor.specs.Boards.{board_after, all_accounts};
ghost use Rattle.serve_board.specs.OperationLog.{head_of};
ghost use Rattle.serve_board.specs.Changes.{operation_of, posted_on};
ghost use Rattle.serve_board.specs.Passes.{HasAll};

use crate::change::Change;
use crate::operation_log::Head;
use crate::page::{Page, Post};
use crate::rule::{InOrder, PageView, Publishes};
use crate::tip::Tip;
use left_right::writer::Writer;
use road_time::NoMemory;
use std::snapshot::Snapshot;
use std::sync::Wait;

/// The writer of two copies.
pub type Keeping = Writer<Page, Post, PageView, InOrder>;

/// Queues a change, adds its operation to the history, and shows all that is queued, or at an error nothing. It waits
/// for readers that are in the middle of an answer.
pub fn submit<R: Wait>(
    rt: &R,
    writer: Keeping,
    head: &Head,
    tip: Tip,
    change: Change,
) -> (Keeping, Tip, Result<(), NoMemory>)
    requires head { head.now ≡ head_of tip.book }
    requires book { writer.desk.shown.value.front.book ≡ tip.book }
    requires tip { HasAll tip.log (posted_on writer.desk.shown.value (drop writer.behind writer.log.items)) }
    requires below { all_accounts (board_after
        (posted_with (operation_of change)
        (posted_on writer.desk.shown.value (drop writer.behind writer.log.items))).published) < 2 ^ 63 }
    ensures book { result.0.desk.shown.value.front.book ≡ tip.book }
    ensures same { result.1.book ≡ tip.book }
    ensures tip { HasAll result.1.log (posted_on result.0.desk.shown.value
        (drop result.0.behind result.0.log.items)) }
    ensures ok { OnOk result.2 (posted_on result.0.desk.shown.value
        (drop result.0.behind result.0.log.items) ≡ posted_with (operation_of change)
        (posted_on writer.desk.shown.value (drop writer.behind writer.log.items))) }
    ensures err { OnErr result.2 ((posted_on result.0.desk.shown.value
        (drop result.0.behind result.0.log.items) ≡ posted_on writer.desk.shown.value
        (drop writer.behind writer.log.items))
        ⊎ (posted_on result.0.desk.shown.value (drop result.0.behind result.0.log.items) ≡ queued_with
        (operation_of change) (posted_on writer.desk.shown.value (drop writer.behind writer.log.items)))) }
{
    let mut writer = writer;
    let about = Snapshot::of(&change);
    let ready = match tip.ready(head) {
        Ok(ready) => ready,
        Err(tip) => return (writer, tip, Err(NoMemory)),
    };
    if writer.append(Post::Changed(change)).is_err() {
        return (writer, ready.into_tip(), Err(NoMemory));
    }
    let tip = ready.add(head, &about);
    if writer.append(Post::Reached(tip.front())).is_err() {
        return (writer, tip, Err(NoMemory));
    }
    let (writer, published) = writer.publish_as::<Publishes, R>(rt);
    if published.is_err() {
        return (writer, tip, Err(NoMemory));
    }
    (writer, tip, Ok(()))
}
