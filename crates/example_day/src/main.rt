//! Days by the parts of the office: the example day by the plain rules, days of a few lines on a floor, and a day of a
//! million lines and one.
//!
//! What it must print was worked out by hand, and apart from this code. Of each day of a few lines it prints what waits,
//! the mark before and after the jobs, the jobs, and what is left; `turns::run_and_settle` is a proved caller of the
//! floor: what it writes is the output of the rules. The long day is over a keeper in memory: it is answered by one
//! worker, audited with its notices by three shards and three workers, imported by three, each job in a thread of its
//! own, and imported again. Its lines were worked out by the day's rule alone, its notices and charges by a program that
//! was written from the rules alone. A body that has no memory beyond a million lines fails here.
#![tactic(auto)]

mod feeding;
mod figures;
mod long_day;
mod plain;
mod reading;
mod rows;
mod running;
mod showing;
mod turns;

use std::process::ExitCode;
use std::rt::HostRuntime;

fn main(rt: HostRuntime) -> ExitCode {
    let plain = plain::show_example_day(rt, &rt);
    let few = rows::show_rows(rt, &rt);
    let long = figures::show_long_day(rt, rt).is_ok();
    if plain && few && long {
        ExitCode::SUCCESS
    } else {
        ExitCode::FAILURE
    }
}
