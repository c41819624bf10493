// The commands `generate SEED` and `rehearse SEED`: the traffic that a seed makes.
ghost use Rattle.std.specs.Prelude.{◌≡◌, ◌≢◌, [], ℕ, true, Some, None, Ok, Err, IfOk, IsOk, OnErr, IsErr};
ghost use Rattle.road_time.specs.declared.day.TheConstants.Limits.{DAY};
ghost use Rattle.road_time.specs.Reads.{reads};
ghost use Rattle.road_io.specs.Fakes.{bytes_of};
ghost use Rattle.keep_office.specs.Kept.{kept_record};
ghost use Rattle.keep_office.specs.Office.{Office, nothing_kept};
ghost use Rattle.tuples_traffic.specs.declared.plan.GenFault.TheVariants as gen_fault;
ghost use Rattle.tuples_traffic.specs.Plans.{field_out};
ghost use Rattle.tuples_traffic.specs.Traffic.{file_of, generated};
ghost use Rattle.office_words.specs.Meaning.{IsRun, IsSize};
ghost use Rattle.office_commands.specs.Commands.{generate_command, rehearse_command};
ghost use Rattle.office_commands.specs.Closings.{status_of};
ghost use Rattle.office_commands.specs.Endings.{StandsBefore, Wrote};
ghost use Rattle.office_commands.specs.Starts.{StartsDay, backlog_of};
ghost use Rattle.office_commands.specs.Traffic.{plan_from_seed, rehearsed_record, rehearsed, EndsTraffic};
ghost use Rattle.office_commands.specs.declared.closing.Closing.TheVariants.{ReadFault, KeeperFault, Words};
ghost use Rattle.road_io.specs.Blame.{FaultsByRoom};

use crate::closing::Closing;
use crate::run_limits::run_limits;
use day_floor::NoPublisher;
use day_import::{DayTerms, Outcome};
use keep_office::{DayRecord, MemKeeper};
use office_words::{DayRun, Size};
use road_io::{Failed, MemSink, MemSource, Sink, VoidSink};
use road_time::{Limits, NoMemory};
use std::alloc::Global;
use std::thread::Threads;
use tuples_traffic::{GenFault, GenPlan};
use ways_crews::Crew;

/// What is to be generated.
fn plan_for(seed: u64, size: Size) -> GenPlan
    requires { IsSize size }
    ensures plan { result ≡ plan_from_seed seed size }
    ensures range { field_out result ≡ None }
{
    GenPlan {
        seed,
        vehicles: size.vehicles,
        minutes: size.minutes,
        xways: size.xways,
        crashes: size.crashes,
    }
}

/// How a generation ends, as a command.
fn generated(done: Result<u64, GenFault>) -> Result<Option<Closing>, Failed>
    requires { (field : ℕ) → done ≢ Err (gen_fault.Size field) }
    ensures ends { EndsTraffic done result }
    ensures said { result ≢ Ok (Some Words) }
    ensures unread { result ≢ Ok (Some ReadFault) }
    ensures unasked { result ≢ Ok (Some KeeperFault) }
    ensures failed { OnErr result (done ≡ Err gen_fault.WriteFault) }
    ensures write_told { done ≡ Err gen_fault.WriteFault → IsErr result }
{
    match done {
        Ok(_) => Ok(None),
        Err(GenFault::Size(_)) => unreachable!(),
        Err(GenFault::WriteFault) => Err(Failed),
        Err(GenFault::NoMemory) => Ok(Some(Closing::NoMemory)),
    }
}

/// Writes the traffic that a seed makes.
pub fn generate<O: Sink>(
    alloc: Global,
    seed: u64,
    size: Size,
    sink: &mut O,
) -> Result<Option<Closing>, Failed>
    requires { IsSize size }
    ensures wrote { (o : Office) → Wrote (generate_command seed size o) result (O.written sink.old)
        (O.written sink.new) }
    ensures said { result ≢ Ok (Some Words) }
    ensures unread { result ≢ Ok (Some ReadFault) }
    ensures unasked { result ≢ Ok (Some KeeperFault) }
    ensures sink { FaultsByRoom (O.faults sink.old) (O.faults sink.new) (O.room sink.old) (O.room sink.new)
        (IsErr result) }
{
    let plan = plan_for(seed, size);
    let done = tuples_traffic::generate(alloc, &plan, sink);
    generated(done)
}

/// The file of a plan, in memory, of which 40,000,000 bytes are enough for any.
fn file_in_memory(alloc: Global, plan: &GenPlan) -> Result<MemSink, NoMemory>
    requires { field_out plan.now ≡ None }
    ensures { IfOk result (λ s. bytes_of s ≡ file_of plan.now) }
{
    let mut sink = MemSink::new(alloc, 40_000_000, 65_536)?;
    match tuples_traffic::generate(alloc, plan, &mut sink) {
        Ok(_) => Ok(sink),
        Err(GenFault::Size(_)) => unreachable!(),
        Err(GenFault::WriteFault) => unreachable!(),
        Err(GenFault::NoMemory) => Err(NoMemory),
    }
}

/// What is kept of a whole file as a day, in memory and where nothing else is kept.
fn kept_alone<C: Crew, R: Threads>(
    rt: &R,
    alloc: Global,
    file: &[u8],
    run: DayRun,
    crew: &mut C,
) -> Result<DayRecord, NoMemory>
    requires range { IsRun run }
    requires whole { (reads file.now DAY run.late).refused ≡ None }
    requires idle { C.out crew.old ≡ [] }
    ensures kept { C.exact ≡ true
        → IfOk result (λ r. r ≡ kept_record run.day file.now (reads file.now DAY run.late).tuples nothing_kept) }
    ensures jobs { StartsDay run (backlog_of run DAY) (reads file.now DAY run.late).tuples (IsOk result)
        (C.jobs crew.old) (C.jobs crew.new) }
    ensures idle { C.out crew.new ≡ [] }
    ensures crew { C.which crew.new ≡ C.which crew.old }
{
    let mut source = MemSource::new(alloc, file, 65_536, &[])?;
    let mut keeper = MemKeeper::new(alloc, &[])?;
    let mut sink = VoidSink;
    let mut publisher = NoPublisher;
    let own = run_limits(&run, &Limits::DAY);
    let terms = DayTerms {
        day: run.day,
        plan: run.plan,
        late: run.late,
        limits: own,
    };
    match day_import::import(
        rt,
        alloc,
        terms,
        &mut source,
        &mut sink,
        &mut keeper,
        crew,
        &mut publisher,
    ) {
        Outcome::Stored(kept) => Ok(kept),
        Outcome::NoMemory => Err(NoMemory),
        _ => unreachable!(),
    }
}

/// What is kept of the traffic of a plan as a day, where nothing else is kept.
fn rehearse_plan<C: Crew, R: Threads>(
    rt: &R,
    alloc: Global,
    plan: &GenPlan,
    run: DayRun,
    crew: &mut C,
) -> Result<DayRecord, NoMemory>
    requires plan { field_out plan.now ≡ None }
    requires range { IsRun run }
    requires idle { C.out crew.old ≡ [] }
    ensures kept { C.exact ≡ true → IfOk result (λ r. r ≡ rehearsed_record run.day plan.now) }
    ensures jobs { StartsDay run (backlog_of run DAY) (generated plan.now) (IsOk result) (C.jobs crew.old)
        (C.jobs crew.new) }
    ensures idle { C.out crew.new ≡ [] }
    ensures crew { C.which crew.new ≡ C.which crew.old }
{
    let file = file_in_memory(alloc, plan)?;
    kept_alone(rt, alloc, file.bytes(), run, crew)
}

/// The closing of a rehearsal, of what was kept.
fn closing_of(kept: &DayRecord) -> Closing
    ensures { result ≡ rehearsed kept.now }
{
    Closing::Rehearsed {
        bytes: kept.bytes,
        digest: kept.digest,
        tuples: kept.tuples,
        notices: kept.notices,
        notices_digest: kept.notices_digest,
        total: kept.total,
    }
}

/// Generates the traffic of a seed and imports it as a day, in memory and beside all that is kept.
pub fn rehearse<C: Crew, R: Threads>(
    rt: &R,
    alloc: Global,
    seed: u64,
    size: Size,
    run: DayRun,
    crew: &mut C,
) -> Closing
    requires size { IsSize size }
    requires range { IsRun run }
    requires idle { C.out crew.old ≡ [] }
    ensures exact { C.exact ≡ true → (o : Office) → StandsBefore (rehearse_command seed size run o) result [] }
    ensures jobs { StartsDay run (backlog_of run DAY) (generated (plan_from_seed seed size)) (status_of result ≡ 0)
        (C.jobs crew.old) (C.jobs crew.new) }
    ensures idle { C.out crew.new ≡ [] }
    ensures crew { C.which crew.new ≡ C.which crew.old }
    ensures said { result ≢ Words }
    ensures unread { result ≢ ReadFault }
    ensures unasked { result ≢ KeeperFault }
{
    let plan = plan_for(seed, size);
    match rehearse_plan(rt, alloc, &plan, run, crew) {
        Ok(kept) => closing_of(&kept),
        Err(_) => Closing::NoMemory,
    }
}
