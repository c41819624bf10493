//! The tolling office over HTTP, for this machine alone.
//!
//! `main` hands the words, a door on a port of 127.0.0.1 and what is kept in the file `KEPT_FILE` to
//! `serve_in_threads`, closes what is kept, and ends with its status. It prints nothing but where what is kept
//! cannot be closed: that it says on standard error.
#![tactic(auto)]

use keep_files::{KEPT_FILE, SqliteKeeper, close_said};
use road_io::words_of;
use road_time::Limits;
use serve_top::{ServerEnd, TcpDoor, serve_in_threads};
use std::process::ExitCode;

/// The greatest limits of a day, but that its tuples are settled, and shown on the live board, 4,096 at a time.
const LIMITS: Limits = Limits {
    lines: Limits::DAY.lines,
    vehicles: Limits::DAY.vehicles,
    backlog: 4_096,
    past: Limits::DAY.past,
};

fn main(rt: HostRuntime) -> ExitCode {
    let Ok(words) = words_of(&rt) else {
        return ExitCode::from(ServerEnd::NoMemory.status());
    };
    let Ok(keeper) = SqliteKeeper::at(rt.alloc(), rt, KEPT_FILE) else {
        return ExitCode::from(ServerEnd::NoMemory.status());
    };
    let mut door = TcpDoor::new(rt, rt);
    let (status, keeper) = serve_in_threads(
        rt,
        rt.alloc(),
        words.as_slice(),
        &LIMITS,
        &mut door,
        keeper,
    );
    close_said(&rt, keeper, "toll_serve");
    ExitCode::from(status)
}
