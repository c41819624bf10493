// What a helper does until the stop, and the crew until a job is done. Both sleep where there is nothing to
// do.
ghost use Rattle.std.specs.Prelude.{◌≡◌, ◌<◌, ◌≤◌, Some, None};
ghost use Rattle.ways_crews.specs.Steps.{IsOfInput};
ghost use Rattle.ways_crews.specs.Views.{after_collect, after_stop, input_of};
ghost use Rattle.ways_crews.specs.Calls.{IsAt, IsSame, KeepsSeat};

use crate::cells::{CellSeat, CellTable};
use crate::gate::Gate;
use crate::moves::{
    BELL, CREW_WAITS, Heard, collect, crew_lies_down, crew_rises, hear, lie_down, own, rise,
    sees_stop, sleep_at_bell, sleep_at_cell, wake_crew,
};
use crate::work::run_at;
use std::alloc::Global;
use std::sync::Wait;
use ways_expressway::Done;

/// Runs the ready jobs of all cells once over, after the bell was heard, and wakes the crew if it sleeps at one. Says
/// whether there was one.
fn help_once<G: Gate>(
    alloc: Global,
    cells: &CellTable,
    seat: &mut CellSeat,
    gate: &G,
    count: usize,
    _heard: &Heard,
) -> bool
    requires seat { IsAt cells.now.table_id seat.old }
    requires count { (count ≡ cells.now.table_id.slots) × (count ≤ 64) }
    requires idle { seat.old.me.0.taken ≡ None }
    ensures { KeepsSeat seat.old seat.new }
{
    let mut any = false;
    for cell in 0..count {
        match run_at(alloc, cells, seat, gate, cell) {
            None => {}
            Some(given) => {
                any = true;
                wake_crew(cells, given, count + CREW_WAITS);
            }
        }
    }
    any
}

/// Sleeps until the bell is rung, if it was not since it was heard.
fn sleep<R: Wait>(rt: &R, cells: &CellTable, seat: &mut CellSeat, count: usize, heard: &Heard)
    requires seat { IsAt cells.now.table_id seat.old }
    requires count { (count ≡ cells.now.table_id.slots) × (count ≤ 64) }
    ensures { KeepsSeat seat.old seat.new }
{
    let lying = lie_down(cells, seat, count);
    sleep_at_bell(rt, cells, &lying, heard, count + BELL);
    rise(cells, seat, count, lying);
}

/// Runs ready jobs until the stop was seen, and sleeps where no cell is ready.
pub(crate) fn help_at<R: Wait, G: Gate>(
    rt: &R,
    alloc: Global,
    cells: &CellTable,
    seat: &mut CellSeat,
    gate: &G,
    count: usize,
)
    requires seat { IsAt cells.now.table_id seat.old }
    requires count { (count ≡ cells.now.table_id.slots) × (count ≤ 64) }
    requires idle { seat.old.me.0.taken ≡ None }
    ensures same { IsSame seat.old seat.new }
    ensures stopped { seat.new.me ≡ after_stop seat.old.me }
{
    for _ in rt.forever() {
        let heard = hear(cells, count + BELL);
        if !help_once(alloc, cells, seat, gate, count, &heard) {
            if sees_stop(cells, seat, count) {
                return;
            }
            sleep(rt, cells, seat, count, &heard);
        }
    }
    unreachable!()
}

/// The crew runs the job of a cell if it is ready, and says whether it was.
fn run_own<G: Gate>(
    alloc: Global,
    cells: &CellTable,
    seat: &mut CellSeat,
    gate: &G,
    cell: usize,
) -> bool
    requires seat { IsAt cells.now.table_id seat.old }
    requires cell { cell < cells.now.table_id.slots }
    requires idle { seat.old.me.0.taken ≡ None }
    ensures { KeepsSeat seat.old seat.new }
{
    match run_at(alloc, cells, seat, gate, cell) {
        None => false,
        Some(given) => {
            own(given);
            true
        }
    }
}

/// Runs one ready job of some cell, and says whether there was one.
fn run_one<G: Gate>(
    alloc: Global,
    cells: &CellTable,
    seat: &mut CellSeat,
    gate: &G,
    count: usize,
) -> bool
    requires seat { IsAt cells.now.table_id seat.old }
    requires count { (count ≡ cells.now.table_id.slots) × (count ≤ 64) }
    requires idle { seat.old.me.0.taken ≡ None }
    ensures { KeepsSeat seat.old seat.new }
{
    for cell in 0..count {
        if run_own(alloc, cells, seat, gate, cell) {
            return true;
        }
    }
    false
}

/// Sleeps while a cell's job is taken. A helper gives back before it looks whether the crew waits, so either
/// the crew sees that, or the helper wakes it.
fn sleep_at<R: Wait>(rt: &R, cells: &CellTable, seat: &mut CellSeat, count: usize, cell: usize)
    requires seat { IsAt cells.now.table_id seat.old }
    requires count { (count ≡ cells.now.table_id.slots) × (count ≤ 64) }
    requires cell { cell < count }
    ensures { KeepsSeat seat.old seat.new }
{
    let lies = crew_lies_down(cells, seat, count);
    sleep_at_cell(rt, cells, &lies, cell);
    crew_rises(cells, seat, count, lies);
}

/// What was done of a cell's job. While it is not done, it runs ready jobs, that of the cell first, and
/// sleeps where there is none.
pub(crate) fn await_done<R: Wait, G: Gate>(
    rt: &R,
    alloc: Global,
    cells: &CellTable,
    seat: &mut CellSeat,
    gate: &G,
    count: usize,
    cell: usize,
) -> Done
    requires crew { IsAt cells.now.table_id seat.old × (seat.old.id ≡ 0) }
    requires count { (count ≡ cells.now.table_id.slots) × (count ≤ 64) }
    requires cell { cell < count }
    requires idle { seat.old.me.0.taken ≡ None }
    ensures same { IsSame seat.old seat.new }
    ensures collected { seat.new.me ≡ after_collect seat.old.me cell }
    ensures done { IsOfInput (input_of seat.old.me.0 cell) result }
{
    for _ in rt.forever() {
        match collect(cells, seat, cell) {
            Some(done) => return done,
            None => {
                if !run_own(alloc, cells, seat, gate, cell)
                    && !run_one(alloc, cells, seat, gate, count)
                {
                    sleep_at(rt, cells, seat, count, cell);
                }
            }
        }
    }
    unreachable!()
}
