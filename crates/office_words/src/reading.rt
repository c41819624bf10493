// The command that matches stand for.
ghost use Rattle.std.specs.Prelude.{◌≡◌, ◌≤◌, IfSome};
ghost use Rattle.clap.specs.Words.{first_value, found_of};
ghost use Rattle.office_words.specs.Meaning.{day_in, late_in, width_in, plan_in, run_in, answers_in, import_in};
ghost use Rattle.office_words.specs.Meaning.{bulk_in, validate_in, audit_in, show_in, past_in, vehicle_in, tariff_in};
ghost use Rattle.office_words.specs.Meaning.{any_order_in, charges_in, check_in};
ghost use Rattle.office_words.specs.Meaning.{meaning, seed_in, size_in, generate_in, rehearse_in, IsInRange, IsPlan};
ghost use Rattle.office_words.specs.Meaning.{IsRecomputing, IsRun, IsSize, backlog_in};

use crate::command::{Command, Comparison, DayRun, Recomputing, Size};
use crate::numbers::{chosen, needed, optional};
use clap::ArgMatches;
use day_plan::Plan;

fn day(m: &ArgMatches<'_>) -> Option<u32>
    ensures value { result ≡ day_in (first_value (found_of m.now)) }
    ensures range { IfSome result (λ n. (70 ≤ n) × (n ≤ 1000000)) }
{
    let n = needed(m, "day", 70, 1_000_000)?;
    Some(n as u32)
}

fn late(m: &ArgMatches<'_>) -> Option<u8>
    ensures value { result ≡ late_in (first_value (found_of m.now)) }
    ensures range { IfSome result (λ n. n ≤ 120) }
{
    let n = optional(m, "late", 0, 120, 0)?;
    Some(n as u8)
}

fn width(m: &ArgMatches<'_>) -> Option<u8>
    ensures value { result ≡ width_in (first_value (found_of m.now)) }
    ensures range { IfSome result (λ n. (1 ≤ n) × (n ≤ 64)) }
{
    let n = optional(m, "workers", 1, 64, 1)?;
    Some(n as u8)
}

fn plan(m: &ArgMatches<'_>) -> Option<Plan>
    ensures value { result ≡ plan_in (first_value (found_of m.now)) }
    ensures range { IfSome result IsPlan }
{
    let width = width(m)?;
    let turns = chosen(m, "turns", 0, u64::MAX)?;
    Some(Plan { width, turns })
}

fn in_bulk(m: &ArgMatches<'_>) -> Option<Recomputing>
    ensures value { result ≡ bulk_in (first_value (found_of m.now)) }
    ensures range { IfSome result IsRecomputing }
{
    let shards = optional(m, "shards", 1, 64, 1)?;
    let width = width(m)?;
    Some(Recomputing::InBulk {
        shards: shards as u8,
        width,
    })
}

fn backlog(m: &ArgMatches<'_>) -> Option<u32>
    ensures value { result ≡ backlog_in (first_value (found_of m.now)) }
    ensures range { IfSome result (λ n. (1 ≤ n) × (n ≤ 65536)) }
{
    let n = optional(m, "backlog", 1, 65_536, 65_536)?;
    Some(n as u32)
}

/// What the run of this day is told.
fn run(m: &ArgMatches<'_>, day: u32) -> Option<DayRun>
    requires low { 70 ≤ day }
    requires high { day ≤ 1000000 }
    ensures value { result ≡ run_in day (first_value (found_of m.now)) }
    ensures range { IfSome result IsRun }
{
    let late = late(m)?;
    let plan = plan(m)?;
    let backlog = backlog(m)?;
    Some(DayRun {
        day,
        late,
        plan,
        backlog,
    })
}

fn answers(m: &ArgMatches<'_>) -> Option<Command>
    ensures value { result ≡ answers_in (first_value (found_of m.now)) }
    ensures range { IfSome result IsInRange }
{
    let day = day(m)?;
    Some(Command::Answers(run(m, day)?))
}

fn import(m: &ArgMatches<'_>) -> Option<Command>
    ensures value { result ≡ import_in (first_value (found_of m.now)) }
    ensures range { IfSome result IsInRange }
{
    let day = day(m)?;
    Some(Command::Import(run(m, day)?))
}

fn validate(m: &ArgMatches<'_>) -> Option<Command>
    ensures value { result ≡ validate_in (first_value (found_of m.now)) }
    ensures range { IfSome result IsInRange }
{
    let day = day(m)?;
    let late = late(m)?;
    let how = Recomputing::Plainly;
    let show = 1;
    let any_order = false;
    Some(Command::Compare(Comparison {
        day,
        late,
        how,
        show,
        any_order,
    }))
}

/// How many of the lines that differ are told.
fn show(m: &ArgMatches<'_>) -> Option<u32>
    ensures value { result ≡ show_in (first_value (found_of m.now)) }
    ensures range { IfSome result (λ n. (1 ≤ n) × (n ≤ 1000)) }
{
    let n = optional(m, "show", 1, 1000, 1)?;
    Some(n as u32)
}

/// Whether the notices of a second may stand in any order.
fn any_order(m: &ArgMatches<'_>) -> bool
    ensures { result ≡ any_order_in (first_value (found_of m.now)) }
{
    match m.get_str("any-order") {
        Some(text) => text == "true",
        None => false,
    }
}

fn audit(m: &ArgMatches<'_>) -> Option<Command>
    ensures value { result ≡ audit_in (first_value (found_of m.now)) }
    ensures range { IfSome result IsInRange }
{
    let day = day(m)?;
    let late = late(m)?;
    let how = in_bulk(m)?;
    let show = show(m)?;
    let any_order = any_order(m);
    Some(Command::Compare(Comparison {
        day,
        late,
        how,
        show,
        any_order,
    }))
}

fn past(m: &ArgMatches<'_>) -> Option<Command>
    ensures value { result ≡ past_in (first_value (found_of m.now)) }
    ensures range { IfSome result IsInRange }
{
    let base = needed(m, "base", 70, 1_000_000)?;
    Some(Command::Past { base: base as u32 })
}

fn vehicle(m: &ArgMatches<'_>) -> Option<Command>
    ensures value { result ≡ vehicle_in (first_value (found_of m.now)) }
    ensures range { IfSome result IsInRange }
{
    let vid = needed(m, "vid", 0, 2_147_483_647)?;
    let from = needed(m, "from", 1, 1_000_000)?;
    let to = needed(m, "to", 1, 1_000_000)?;
    if from > to {
        return None;
    }
    Some(Command::Vehicle {
        vid: vid as u32,
        from: from as u32,
        to: to as u32,
    })
}

fn charges(m: &ArgMatches<'_>) -> Option<Command>
    ensures value { result ≡ charges_in (first_value (found_of m.now)) }
    ensures range { IfSome result IsInRange }
{
    let from = needed(m, "from", 1, 1_000_000)?;
    let to = needed(m, "to", 1, 1_000_000)?;
    if from > to {
        return None;
    }
    Some(Command::Charges {
        from: from as u32,
        to: to as u32,
    })
}

fn check(m: &ArgMatches<'_>) -> Option<Command>
    ensures value { result ≡ check_in (first_value (found_of m.now)) }
    ensures range { IfSome result IsInRange }
{
    let day = day(m)?;
    let late = late(m)?;
    Some(Command::Check { day, late })
}

fn tariff(m: &ArgMatches<'_>) -> Option<Command>
    ensures value { result ≡ tariff_in (first_value (found_of m.now)) }
    ensures range { IfSome result IsInRange }
{
    let xway = needed(m, "xway", 0, 255)?;
    let crowd = needed(m, "crowd", 0, 500_000)?;
    let speed = needed(m, "speed", 0, 100)?;
    let factor = needed(m, "factor", 0, 20)?;
    Some(Command::Tariff {
        xway: xway as u8,
        crowd: crowd as u32,
        speed: speed as u8,
        factor: factor as u8,
    })
}

fn seed(m: &ArgMatches<'_>) -> Option<u64>
    ensures { result ≡ seed_in (first_value (found_of m.now)) }
{
    needed(m, "seed", 0, u64::MAX)
}

fn size(m: &ArgMatches<'_>) -> Option<Size>
    ensures value { result ≡ size_in (first_value (found_of m.now)) }
    ensures range { IfSome result IsSize }
{
    let vehicles = optional(m, "vehicles", 1, 5000, 1000)?;
    let minutes = optional(m, "minutes", 1, 1440, 60)?;
    let xways = optional(m, "xways", 1, 256, 1)?;
    let crashes = optional(m, "crashes", 0, 100, 0)?;
    if 2 * crashes > vehicles {
        return None;
    }
    Some(Size {
        vehicles: vehicles as u32,
        minutes: minutes as u32,
        xways: xways as u16,
        crashes: crashes as u32,
    })
}

fn generate(m: &ArgMatches<'_>) -> Option<Command>
    ensures value { result ≡ generate_in (first_value (found_of m.now)) }
    ensures range { IfSome result IsInRange }
{
    let seed = seed(m)?;
    let size = size(m)?;
    Some(Command::Generate { seed, size })
}

fn rehearse(m: &ArgMatches<'_>) -> Option<Command>
    ensures value { result ≡ rehearse_in (first_value (found_of m.now)) }
    ensures range { IfSome result IsInRange }
{
    let seed = seed(m)?;
    let size = size(m)?;
    let run = run(m, 100)?;
    Some(Command::Rehearse { seed, size, run })
}

/// The command of this name with these values.
pub fn command(name: &str, m: &ArgMatches<'_>) -> Option<Command>
    ensures value { result ≡ meaning name.now (first_value (found_of m.now)) }
    ensures range { IfSome result IsInRange }
{
    match name {
        "answers" => answers(m),
        "import" => import(m),
        "validate" => validate(m),
        "audit" => audit(m),
        "past" => past(m),
        "day" => Some(Command::Day { day: day(m)? }),
        "vehicle" => vehicle(m),
        "accidents" => Some(Command::Accidents { late: late(m)? }),
        "export" => Some(Command::Export { day: day(m)? }),
        "tariff" => tariff(m),
        "tariffs" => Some(Command::Tariffs),
        "generate" => generate(m),
        "rehearse" => rehearse(m),
        "days" => Some(Command::Days),
        "charges" => charges(m),
        "check" => check(m),
        _ => None,
    }
}
