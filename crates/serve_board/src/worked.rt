//! Calls of a board, as its callers make them.
ghost use Rattle.std.specs.Prelude.{◌≡◌, ◌⊎◌, IfOk, IfSome, IsTrue};
ghost use Rattle.serve_board.specs.Passes.{unposted, StartsWith};
ghost use Rattle.serve_board.specs.Worked.{one_toll, with_earlier_toll, without_toll};

use crate::live::Live;
use crate::reader::BoardReader;
use crate::writer::BoardWriter;
use day_floor::{Charged, Publisher};
use road_time::NoMemory;
use std::sync::Wait;

/// A toll of 2 that vehicle 100 owes.
pub const TOLL: Charged = Charged {
    vid: 100,
    xway: 0,
    toll: 2,
};

/// Vehicle 100's account at once, after day 100 began, and after a charge up to mark 54 that the reader is told of.
/// The last is given by operations that begin with these two.
pub fn three_accounts<R: Wait + Drop>(
    writer: &mut BoardWriter<R>,
    reader: &mut BoardReader,
) -> Result<(Option<Live>, Option<Live>, Option<Live>), NoMemory>
    requires new { writer.old.posted ≡ unposted }
    requires one { reader.old.board ≡ writer.old.board }
    ensures board { writer.new.board ≡ writer.old.board }
    ensures sees { IfOk result (λ answers. IfSome answers.2 (λ _. StartsWith reader.new.seen one_toll)) }
{
    let first = reader.balance(100);
    writer.begin(100)?;
    let second = reader.balance(100);
    writer.publish(&[TOLL], 54)?;
    reader.learn(writer.tell());
    let third = reader.balance(100);
    Ok((first, second, third))
}

/// Vehicle 7's account and the total on a day after another, as a reader is answered that was told of them; vehicle 7's
/// account, as another reader is answered that was told nothing; and vehicle 7's account on the next day.
pub fn two_days<R: Wait + Drop>(
    writer: &mut BoardWriter<R>,
    reader: &mut BoardReader,
    untold: &mut BoardReader,
) -> Result<[Option<Live>; 4], NoMemory>
    requires new { writer.old.posted ≡ unposted }
    requires one { reader.old.board ≡ writer.old.board }
{
    writer.begin(99)?;
    writer.publish(
        &[Charged {
            vid: 7,
            xway: 0,
            toll: 9,
        }],
        3,
    )?;
    writer.begin(100)?;
    writer.publish(
        &[
            Charged {
                vid: 7,
                xway: 0,
                toll: 1,
            },
            Charged {
                vid: 8,
                xway: 0,
                toll: 5,
            },
            Charged {
                vid: 7,
                xway: 1,
                toll: 2,
            },
        ],
        7,
    )?;
    reader.learn(writer.tell());
    let of_one = reader.balance(7);
    let of_all = reader.total();
    let unheard = untold.balance(7);
    writer.begin(101)?;
    reader.learn(writer.tell());
    Ok([of_one, of_all, unheard, reader.balance(7)])
}

/// Whether a charge on day 100 was published, vehicle 100's account then, and its account on day 101, which began
/// after it.
/// A refused charge is published before the next operation, or not at all.
pub fn a_charge_that_may_be_refused<R: Wait + Drop>(
    writer: &mut BoardWriter<R>,
    reader: &mut BoardReader,
) -> Result<(bool, Option<Live>, Option<Live>), NoMemory>
    requires new { writer.old.posted ≡ unposted }
    requires one { reader.old.board ≡ writer.old.board }
    ensures published { IfOk result (λ answers. IsTrue answers.0 → writer.new.posted.published ≡ with_earlier_toll) }
    ensures either { IfOk result (λ _. (writer.new.posted.published ≡ with_earlier_toll)
        ⊎ (writer.new.posted.published ≡ without_toll)) }
{
    writer.begin(100)?;
    let published = writer.publish(&[TOLL], 54).is_ok();
    reader.learn(writer.tell());
    let then = reader.balance(100);
    writer.begin(101)?;
    reader.learn(writer.tell());
    Ok((published, then, reader.balance(100)))
}
