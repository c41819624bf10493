// The worked rows, and a reader beside a writer in two threads, with ample memory.
use road_time::NoMemory;
use serve_board::side_by_side::{ends_move, publish_marks, watch_marks};
use serve_board::worked::{a_charge_that_may_be_refused, three_accounts, two_days};
use serve_board::{Board, Live, board};
use std::sync::atomic::AtomicBool;
use std::thread;

fn answer(day: u32, as_of: u64, amount: u64) -> Option<Live> {
    Some(Live { day, as_of, amount })
}

/// An account at once, after a day began, and after a charge that the reader was told of.
#[test]
fn three_accounts_are_answered(rt: HostRuntime) -> Result<(), NoMemory> {
    let Board {
        mut writer,
        readers,
    } = board(rt, rt.alloc(), 1)?;
    let reader = readers.into_vec().pop();
    let answers = match reader {
        Some(mut reader) => three_accounts(&mut writer, &mut reader),
        None => Err(NoMemory),
    };
    writer.end();
    let (first, second, third) = answers?;
    assert_eq!(rt; first, answer(0, 0, 0));
    assert_eq!(rt; second, answer(100, 0, 0));
    assert_eq!(rt; third, answer(100, 54, 2));
    Ok(())
}

/// A day after another begins with nothing, and the total is that of all vehicles. A reader that was made before, and
/// is told nothing, is answered the same.
#[test]
fn a_new_day_begins_with_nothing(rt: HostRuntime) -> Result<(), NoMemory> {
    let Board {
        mut writer,
        readers,
    } = board(rt, rt.alloc(), 2)?;
    let mut readers = readers.into_vec();
    let answers = match (readers.pop(), readers.pop()) {
        (Some(mut reader), Some(mut untold)) => two_days(&mut writer, &mut reader, &mut untold),
        _ => Err(NoMemory),
    };
    writer.end();
    let [of_one, of_all, unheard, next] = answers?;
    assert_eq!(rt; of_one, answer(100, 7, 3));
    assert_eq!(rt; of_all, answer(100, 7, 8));
    assert_eq!(rt; unheard, answer(100, 7, 3));
    assert_eq!(rt; next, answer(101, 0, 0));
    Ok(())
}

/// A refused publication shows nothing, and the next day begins with nothing, also where what was refused is published
/// before it.
#[test]
fn a_refused_charge_is_not_shown(rt: HostRuntime) -> Result<(), NoMemory> {
    let Board {
        mut writer,
        readers,
    } = board(rt, rt.alloc(), 1)?;
    let reader = readers.into_vec().pop();
    let answers = match reader {
        Some(mut reader) => a_charge_that_may_be_refused(&mut writer, &mut reader),
        None => Err(NoMemory),
    };
    writer.end();
    let (published, then, next) = answers?;
    let wanted = if published {
        answer(100, 54, 2)
    } else {
        answer(100, 0, 0)
    };
    assert_eq!(rt; then, wanted);
    assert_eq!(rt; next, answer(101, 0, 0));
    Ok(())
}

/// No mark falls while the other thread publishes, each answer is the sum up to its mark, and the last one is seen.
#[test]
fn marks_never_fall(rt: HostRuntime) -> Result<(), NoMemory> {
    let Board {
        mut writer,
        readers,
    } = board(rt, rt.alloc(), 1)?;
    let mut readers = readers.into_vec();
    let Some(mut reader) = readers.pop() else {
        writer.end();
        return Err(NoMemory);
    };
    let ended = AtomicBool::new(false);
    let (seen, published) = thread::join(
        &rt,
        || watch_marks(&mut reader, &ended),
        || publish_marks(&mut writer, 1000, &ended),
    );
    writer.end();
    ends_move::<HostRuntime>();
    assert!(rt; published);
    assert_eq!(rt; seen, Some(1000));
    Ok(())
}
