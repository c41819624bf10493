// The end of a program that keeps an office in a file.
use crate::kept_file::{KEPT_FILE, SqliteKeeper};
use std::rt::HostRuntime;

/// Closes what is kept, and says on standard error, after the program's name, where that failed. What was put stays
/// either way: it lies in the log beside the file then.
pub fn close_said(rt: &HostRuntime, keeper: SqliteKeeper, program: &str) {
    if let Err(cause) = keeper.end() {
        let _ = eprintln!(rt;
            "{}: {} is not closed, what was put lies in its log: {}",
            program, KEPT_FILE, cause
        );
    }
}
