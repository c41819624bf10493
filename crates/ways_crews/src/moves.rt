// The steps on a cell, each as one call.
ghost use Rattle.std.specs.Prelude.{◌≡◌, ◌<◌, ◌≤◌, ◌+◌, Some, None, IfSome, IfNone, OnOk, IfErr, MatchBool};
ghost use Rattle.atomic_table.specs.Table.{rest};
ghost use Rattle.ways_expressway.specs.Results.{IsResultOf};
ghost use Rattle.ways_expressway.specs.declared.job.Job.{Job as TheJob};
ghost use Rattle.ways_crews.specs.Steps.{IsOfInput};
ghost use Rattle.ways_crews.specs.Views.{CanBeRun, input_of, with_taken};
ghost use Rattle.ways_crews.specs.Views.{after_announce, after_take, after_collect, after_stop};
ghost use Rattle.ways_crews.specs.Calls.{IsAt, IsSame, KeepsSeat, HasTurn};
ghost use Rattle.ways_crews.specs.declared.moves.TheConstants.{BELL, SLEEPERS, CREW_WAITS};

use crate::cells::{CellSeat, CellTable, Parcel};
use crate::plays::{
    Announces, Collects, GivesBack, LooksForStop, Opens, Rings, Shuts, StopsCrew, TakesJob,
};
use std::sync::Wait;
use ways_expressway::{Done, Job};

const FREE: u64 = 0;

const READY: u64 = 1;

const TAKEN: u64 = 2;

const DONE: u64 = 3;

const OPEN: u64 = 4;

// Behind the cells' words stands the stop, and behind that these.
pub(crate) const BELL: usize = 1;

pub(crate) const SLEEPERS: usize = 2;

pub(crate) const CREW_WAITS: usize = 3;

/// The crew announces a job in a cell that is free. The job comes back where the cell is not.
pub(crate) fn announce(
    cells: &CellTable,
    seat: &mut CellSeat,
    cell: usize,
    job: Job,
) -> Result<(), Job>
    requires crew { IsAt cells.now.table_id seat.old × (seat.old.id ≡ 0) }
    requires cell { cell < cells.now.table_id.slots }
    requires free { input_of seat.old.me.0 cell ≡ None }
    requires ready { CanBeRun job }
    ensures same { IsSame seat.old seat.new }
    ensures ok { OnOk result (seat.new.me ≡ after_announce seat.old.me cell job) }
    ensures err { IfErr result (λ back. (back ≡ job) × (seat.new.me ≡ seat.old.me)) }
{
    if cells.compare_exchange::<Opens>(seat, cell, FREE, OPEN) != FREE {
        return Err(job);
    }
    cells.exchange(seat, cell, Some(Parcel::Waiting(job)));
    cells.store::<Announces>(seat, cell, READY);
    Ok(())
}

/// Takes the job of a cell, if it is ready.
pub(crate) fn take(cells: &CellTable, seat: &mut CellSeat, cell: usize) -> Option<Job>
    requires seat { IsAt cells.now.table_id seat.old }
    requires cell { cell < cells.now.table_id.slots }
    requires idle { seat.old.me.0.taken ≡ None }
    ensures same { IsSame seat.old seat.new }
    ensures taken { IfSome result (λ job. CanBeRun job × (seat.new.me ≡ after_take seat.old.me cell job)) }
    ensures none { IfNone result (seat.new.me ≡ seat.old.me) }
{
    if cells.peek(cell) != READY
        || cells.compare_exchange::<TakesJob>(seat, cell, READY, TAKEN) != READY
    {
        return None;
    }
    match cells.exchange(seat, cell, None) {
        Some(Parcel::Waiting(job)) => Some(job),
        _ => unreachable!(),
    }
}

/// A job that was given back in a cell, of which the crew was not told yet. It cannot be dropped: `wake_crew` ends it,
/// or `own`.
pub(crate) struct GivenBack {
    cell: usize,
}

/// Gives back what was done of the job that was taken.
pub(crate) fn give_back(
    cells: &CellTable,
    seat: &mut CellSeat,
    cell: usize,
    done: Done,
) -> GivenBack
    requires seat { IsAt cells.now.table_id seat.old }
    requires cell { cell < cells.now.table_id.slots }
    requires turn { HasTurn seat.old cell }
    requires result { (job : TheJob) × (seat.old.me.0.taken ≡ Some (cell, job)) × IsResultOf job done }
    ensures same { IsSame seat.old seat.new }
    ensures given { seat.new.me ≡ (with_taken seat.old.me.0 None, rest seat.old.me.1) }
    ensures cell { result.cell ≡ cell }
{
    cells.exchange(seat, cell, Some(Parcel::Finished(done)));
    cells.store::<GivesBack>(seat, cell, DONE);
    GivenBack { cell }
}

/// Wakes the crew at the cell where a job was given back, if the word says that it is about to sleep.
pub(crate) fn wake_crew(cells: &CellTable, given: GivenBack, waits: usize)
    requires cell { given.cell < cells.now.table_id.words }
    requires waits { waits < cells.now.table_id.words }
    requires word { waits ≡ cells.now.table_id.slots + CREW_WAITS }
{
    let GivenBack { cell } = given;
    if cells.peek(waits) != 0 {
        cells.wake_all(cell);
    }
}

/// The crew gave a job back itself, and need not be told.
pub(crate) fn own(given: GivenBack) {
    let GivenBack { cell: _ } = given;
}

/// The crew takes what was done of a cell's job, if it is done.
pub(crate) fn collect(cells: &CellTable, seat: &mut CellSeat, cell: usize) -> Option<Done>
    requires crew { IsAt cells.now.table_id seat.old × (seat.old.id ≡ 0) }
    requires cell { cell < cells.now.table_id.slots }
    ensures same { IsSame seat.old seat.new }
    ensures done { IfSome result (IsOfInput (input_of seat.old.me.0 cell)) }
    ensures collected { IfSome result (λ done. seat.new.me ≡ after_collect seat.old.me cell) }
    ensures none { IfNone result (seat.new.me ≡ seat.old.me) }
{
    if cells.compare_exchange::<Collects>(seat, cell, DONE, OPEN) != DONE {
        return None;
    }
    let parcel = cells.exchange(seat, cell, None);
    cells.store::<Shuts>(seat, cell, FREE);
    match parcel {
        Some(Parcel::Finished(done)) => Some(done),
        _ => unreachable!(),
    }
}

/// A stop that was raised, of which no helper was told yet. It cannot be dropped: `wake_all` ends it.
pub(crate) struct StopRaised(());

/// A bell that was rung, and the word that helpers sleep at, where none was woken yet. It cannot be dropped: a wake
/// ends it.
pub(crate) struct Rung {
    word: usize,
}

/// Raises the stop.
pub(crate) fn raise_stop(cells: &CellTable, seat: &mut CellSeat, count: usize) -> StopRaised
    requires seat { IsAt cells.now.table_id seat.old }
    requires count { count ≡ cells.now.table_id.slots }
    ensures same { IsSame seat.old seat.new }
    ensures stopped { seat.new.me ≡ after_stop seat.old.me }
{
    cells.store::<StopsCrew>(seat, count, 1);
    StopRaised(())
}

/// Whether the stop was raised.
pub(crate) fn sees_stop(cells: &CellTable, seat: &mut CellSeat, count: usize) -> bool
    requires seat { IsAt cells.now.table_id seat.old }
    requires count { count ≡ cells.now.table_id.slots }
    ensures same { IsSame seat.old seat.new }
    ensures seen { MatchBool result (seat.new.me ≡ after_stop seat.old.me) (seat.new.me ≡ seat.old.me) }
{
    cells.load::<LooksForStop>(seat, count) == 1
}

/// Rings the bell, for helpers that wait.
pub(crate) fn ring(cells: &CellTable, seat: &mut CellSeat, count: usize) -> Rung
    requires seat { IsAt cells.now.table_id seat.old }
    requires count { (count ≡ cells.now.table_id.slots) × (count ≤ 64) }
    ensures kept { KeepsSeat seat.old seat.new }
    ensures word { result.word ≡ count + BELL }
{
    let word = count + BELL;
    cells.fetch_add::<Rings>(seat, word, 1);
    Rung { word }
}

/// Wakes one of those that sleep at the bell that was rung, if the word says that there are some.
pub(crate) fn wake_one(cells: &CellTable, rung: Rung, sleepers: usize)
    requires bell { rung.word < cells.now.table_id.words }
    requires sleepers { sleepers < cells.now.table_id.words }
    requires word { sleepers ≡ cells.now.table_id.slots + SLEEPERS }
{
    let Rung { word } = rung;
    if cells.peek(sleepers) != 0 {
        cells.wake_one(word);
    }
}

/// Wakes all that sleep at the bell that was rung for a stop.
pub(crate) fn wake_all(cells: &CellTable, rung: Rung, stop: StopRaised)
    requires { rung.word < cells.now.table_id.words }
{
    let Rung { word } = rung;
    let StopRaised(()) = stop;
    cells.wake_all(word);
}

/// What the bell's word was before a helper looked at the cells.
#[derive(Drop)]
pub(crate) struct Heard {
    rung: u64,
}

/// A helper that said that it is about to sleep. It cannot be dropped: `rise` ends it.
pub(crate) struct Lying(());

/// A crew that said that it is about to sleep. It cannot be dropped: `crew_rises` ends it.
pub(crate) struct CrewLies(());

/// Looks at the bell.
pub(crate) fn hear(cells: &CellTable, bell: usize) -> Heard
    requires bell { bell < cells.now.table_id.words }
    requires word { bell ≡ cells.now.table_id.slots + BELL }
{
    Heard {
        rung: cells.peek(bell),
    }
}

/// A helper that said so sleeps until the bell is rung, if it was not since it was heard.
pub(crate) fn sleep_at_bell<R: Wait>(
    rt: &R,
    cells: &CellTable,
    _lying: &Lying,
    heard: &Heard,
    bell: usize,
)
    requires bell { bell < cells.now.table_id.words }
    requires word { bell ≡ cells.now.table_id.slots + BELL }
{
    cells.park(rt, bell, (heard.rung & 0xffff_ffff) as u32);
}

/// A crew that said so sleeps while a cell's job is taken.
pub(crate) fn sleep_at_cell<R: Wait>(rt: &R, cells: &CellTable, _lies: &CrewLies, cell: usize)
    requires word { cell < cells.now.table_id.words }
    requires cell { cell < cells.now.table_id.slots }
{
    cells.park(rt, cell, TAKEN as u32);
}

/// Says of a helper that it is about to sleep.
pub(crate) fn lie_down(cells: &CellTable, seat: &mut CellSeat, count: usize) -> Lying
    requires seat { IsAt cells.now.table_id seat.old }
    requires count { (count ≡ cells.now.table_id.slots) × (count ≤ 64) }
    ensures { KeepsSeat seat.old seat.new }
{
    cells.fetch_add::<Rings>(seat, count + SLEEPERS, 1);
    Lying(())
}

/// Says of a helper that it sleeps no more.
pub(crate) fn rise(cells: &CellTable, seat: &mut CellSeat, count: usize, lying: Lying)
    requires seat { IsAt cells.now.table_id seat.old }
    requires count { (count ≡ cells.now.table_id.slots) × (count ≤ 64) }
    ensures { KeepsSeat seat.old seat.new }
{
    cells.fetch_sub::<Rings>(seat, count + SLEEPERS, 1);
    let Lying(()) = lying;
}

/// Says whether the crew is about to sleep.
fn set_waits(cells: &CellTable, seat: &mut CellSeat, count: usize, waits: u64)
    requires seat { IsAt cells.now.table_id seat.old }
    requires count { (count ≡ cells.now.table_id.slots) × (count ≤ 64) }
    ensures { KeepsSeat seat.old seat.new }
{
    cells.store::<Rings>(seat, count + CREW_WAITS, waits);
}

/// Says of the crew that it is about to sleep.
pub(crate) fn crew_lies_down(cells: &CellTable, seat: &mut CellSeat, count: usize) -> CrewLies
    requires seat { IsAt cells.now.table_id seat.old }
    requires count { (count ≡ cells.now.table_id.slots) × (count ≤ 64) }
    ensures { KeepsSeat seat.old seat.new }
{
    set_waits(cells, seat, count, 1);
    CrewLies(())
}

/// Says of the crew that it sleeps no more.
pub(crate) fn crew_rises(cells: &CellTable, seat: &mut CellSeat, count: usize, lies: CrewLies)
    requires seat { IsAt cells.now.table_id seat.old }
    requires count { (count ≡ cells.now.table_id.slots) × (count ≤ 64) }
    ensures { KeepsSeat seat.old seat.new }
{
    set_waits(cells, seat, count, 0);
    let CrewLies(()) = lies;
}
