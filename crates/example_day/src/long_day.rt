// The day's lines: each vehicle sends one in each turn.
ghost use Rattle.std.specs.Prelude.{◌≤◌};

use road_time::{NoMemory, Report, Tuple};
use std::alloc::Global;
use tuples_text::put_tuple;

/// The turns of the day, half a minute each.
const TURNS: u32 = 101;

/// The vehicles, by their numbers from 0.
const VEHICLES: u32 = 9901;

/// The turn in whose place a vehicle is seen: the turn itself, but for two of each 600 vehicles, which come to a place
/// and stand there for seven turns.
fn seen_of(turn: u32, vid: u32) -> u32
    requires turn { turn ≤ 100 }
    requires vid { vid ≤ 9900 }
    ensures { result ≤ 100 }
{
    let begin = 20 + vid / 300;
    let side = vid % 600;
    if (side == 0 || side == 20) && begin <= turn && turn < begin + 8 {
        begin
    } else {
        turn
    }
}

/// A vehicle's report: 300 vehicles drive together, a mile in four turns and a mile before the next 300, on two
/// expressways both ways, and change their lanes every eight turns.
fn report_of(turn: u32, vid: u32) -> Report
    requires turn { turn ≤ 100 }
    requires vid { vid ≤ 9900 }
{
    let seen = seen_of(turn, vid);
    let group = vid / 300;
    let mile = group + seen / 4;
    let dir = vid / 2 % 2;
    let seg = if dir == 0 { mile } else { 99 - mile };
    let spd = if seen == turn {
        20 + vid % 7 * 5 + (group + turn) % 20
    } else {
        0
    };
    Report {
        time: 30 * turn,
        vid,
        spd: spd as u8,
        xway: (vid % 2) as u8,
        lane: ((vid + seen / 8) % 5) as u8,
        dir: dir as u8,
        seg: seg as u8,
        pos: seg * 5280 + seen % 4 * 1320,
    }
}

/// What a vehicle sends in a turn: each hundredth asks for the balance of the vehicle before it, under the turn's number.
fn tuple_of(turn: u32, vid: u32) -> Tuple
    requires turn { turn ≤ 100 }
    requires vid { vid ≤ 9900 }
{
    if vid % 100 == 99 {
        Tuple::Balance {
            time: 30 * turn,
            vid: vid - 1,
            qid: turn,
        }
    } else {
        Tuple::Report(report_of(turn, vid))
    }
}

/// The lines of a turn behind those of earlier ones.
fn put_turn(lines: &mut Vec<u8>, turn: u32) -> Result<(), NoMemory>
    requires { turn ≤ 100 }
{
    for vid in 0..VEHICLES {
        put_tuple(lines, &tuple_of(turn, vid))?;
    }
    Ok(())
}

/// The day's lines.
pub(crate) fn lines_of_day(alloc: Global) -> Result<Vec<u8>, NoMemory> {
    let mut lines = Vec::new(alloc);
    for turn in 0..TURNS {
        put_turn(&mut lines, turn)?;
    }
    Ok(lines)
}
