// Whole runs of the server over a door in memory.
ghost use Rattle.std.specs.Prelude.{◌≡◌, IfOk};
ghost use Rattle.serve_top.specs.MemDoors.{accepted_at};

use super::keepers::{has_day, kept_as, new_keeper};
use keep_office::MemKeeper;
use road_io::MemLink;
use road_time::{Limits, NoMemory};
use serve_board::{BoardHistory, BoardNaming};
use serve_desk::{Naming, Opened};
use serve_loops::MemListener;
use serve_top::{MemDoor, serve_words};
use std::alloc::Global;
use std::marker::Brand;
use std::sync::Wait;
use std::thread::Threads;
use ways_crews::InlineCrew;

const EMPTY_DAY: &[u8] = b"POST /days/100 HTTP/1.1\r\nContent-Length: 0\r\n\r\n";

/// Words, whether the door refuses, the exit status, and whether the posted day is kept then.
const ROWS: [(&str, bool, u8, bool); 8] = [
    ("8080 --sessions 1 --readers 1", false, 0, true),
    ("8080 --sessions 2 --readers 1", false, 4, true),
    ("8080 --sessions 1 --readers 1", true, 2, false),
    ("8080 --sessions 1", false, 2, false),
    ("0", false, 1, false),
    ("8080 --sessions 0", false, 1, false),
    ("8080 --readers 1 8081", false, 1, false),
    ("8080 --help", false, 1, false),
];

fn words_of(alloc: Global, line: &str) -> Result<Vec<String>, NoMemory> {
    let mut words = Vec::new(alloc);
    for word in line.split(' ') {
        words.push(String::from_str(alloc, word)?)?;
    }
    Ok(words)
}

/// A door with one listener, which has one connection: the POST of an empty day.
fn door_of(alloc: Global, refuses: bool) -> Result<MemDoor, NoMemory>
    ensures { IfOk result (λ door. accepted_at door ≡ 0) }
{
    let mut links = Vec::new(alloc);
    links.push(MemLink::new(alloc, EMPTY_DAY, 7, 1000, &[])?)?;
    let mut ears = Vec::new(alloc);
    ears.push(MemListener::new(alloc, links, &[])?)?;
    Ok(MemDoor::new(ears, refuses))
}

/// The status of a run by these words, and whether the day is kept then.
fn run_over<J: Naming + BoardNaming + Send + Sync, R: Wait + Threads + Drop + Copy + Send + Sync>(
    rt: R,
    alloc: Global,
    words: &[String],
    refuses: bool,
    history: BoardHistory,
    opened: Opened<MemKeeper>,
) -> Result<(u8, bool), NoMemory>
    requires named { history ≡ J.board }
    requires book { opened.seen.book ≡ J.book }
{
    let mut door = door_of(alloc, refuses)?;
    let (status, kept) = serve_words(
        rt,
        alloc,
        words,
        &Limits::DAY,
        &mut door,
        history.named::<J>(),
        kept_as::<J>(opened),
        InlineCrew::new(alloc, false),
    );
    Ok((status, has_day(kept)))
}

/// The same of a new keeper.
fn run<R: Wait + Threads + Drop + Copy + Send + Sync>(
    rt: R,
    alloc: Global,
    words: &[String],
    refuses: bool,
) -> Result<(u8, bool), NoMemory> {
    let opened = new_keeper(alloc, &[])?;
    run_over::<Brand, R>(rt, alloc, words, refuses, BoardHistory::new(), opened)
}

#[test]
fn words_and_their_statuses(rt: HostRuntime) -> Result<(), NoMemory> {
    let alloc = rt.alloc();
    for (line, refuses, status, kept) in ROWS {
        let words = words_of(alloc, line)?;
        let ended = run(rt, alloc, words.as_slice(), refuses)?;
        assert!(rt; ended == (status, kept));
    }
    let none = Vec::new(alloc);
    assert!(rt; run(rt, alloc, none.as_slice(), false)? == (1, false));
    Ok(())
}
