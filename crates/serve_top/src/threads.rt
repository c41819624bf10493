// The server, with threads for its jobs.
ghost use Rattle.std.specs.Prelude.{◌≡◌, ◌≢◌, ◌≤◌, ◌⊎◌, None, map, string_bytes};
ghost use Rattle.road_io.specs.Faults.{Rose};
ghost use Rattle.road_time.specs.Fits.{IsLimits};
ghost use Rattle.serve_top.specs.Meaning.{serving_meant};
ghost use Rattle.serve_loops.specs.Wires.{wire_by};
ghost use Rattle.serve_loops.specs.Acceptors.{TurnOf};
ghost use Rattle.serve_top.specs.Attends.{Attends};
ghost use Rattle.serve_top.specs.Endings.{counts_of, EndsWith, HasServed};
ghost use Rattle.serve_top.specs.Served.{ServedAsSaid, Working};

use crate::door::Door;
use crate::serving::serve_words;
use keep_office::Keeper;
use road_time::Limits;
use serve_board::{BoardHistory, BoardNaming};
use serve_desk::{Naming, Opened};
use std::alloc::Global;
use std::marker::Brand;
use std::sync::Wait;
use std::thread::Threads;
use ways_crews::{Crew, NoGate, ThreadCrew};

/// The same over a keeper and a board whose histories were opened, under their names.
fn serve_named<
    D: Door,
    J: Naming + BoardNaming + Send + Sync,
    K: Keeper + Send,
    R: Wait + Threads + Drop + Copy + Send + Sync,
>(
    rt: R,
    alloc: Global,
    words: &[String],
    limits: &Limits,
    door: &mut D,
    history: BoardHistory,
    opened: Opened<K>,
) -> (u8, K)
    requires named { history ≡ J.board }
    requires within { IsLimits limits.now }
    requires unused { D.accepted door.old ≡ 0 }
    requires book { opened.seen.book ≡ J.book }
    ensures ends { EndsWith (serving_meant (map string_bytes words.now))
        (counts_of (D.refused door.old) (D.faults door.old) (D.accepted door.old))
        (counts_of (D.refused door.new) (D.faults door.new) (D.accepted door.new)) result.0 }
    ensures served { result.0 ≡ 0 → HasServed (serving_meant (map string_bytes words.now))
        (counts_of (D.refused door.new) (D.faults door.new) (D.accepted door.new)) }
    ensures desk { result.0 ≡ 0 → ServedAsSaid D.hears D.Ear.faults D.Ear.accepted
        (λ (desk : Working). TurnOf D.Ear.gives D.Ear.takes
        (wire_by D.Ear.Line.left D.Ear.Line.plan D.Ear.Line.written D.Ear.Line.room D.Ear.Line.faults)
        (Attends K.told K.faults K.refuses ⟦<ThreadCrew<R, NoGate> as Crew>⟧.exact desk.limits))
        (λ desk. desk.plan) (λ desk. desk.limits) limits.now (serving_meant (map string_bytes words.now)) }
    ensures words { result.0 ≡ 1 → serving_meant (map string_bytes words.now) ≡ None }
    ensures no_words { serving_meant (map string_bytes words.now) ≡ None → (result.0 ≡ 1) ⊎ (result.0 ≡ 8) }
    ensures untouched { result.0 ≡ 1 → door.new ≡ door.old }
    ensures refused { result.0 ≡ 2 → Rose (D.refused door.old) (D.refused door.new) }
    ensures fault { result.0 ≡ 4 → Rose (D.faults door.old) (D.faults door.new) }
    ensures refused_later { D.refused door.old ≤ D.refused door.new }
    ensures faults_later { D.faults door.old ≤ D.faults door.new }
    ensures refused_still { result.0 ≢ 2 → D.refused door.new ≡ D.refused door.old }
    ensures faults_still { result.0 ≢ 4 → D.faults door.new ≡ D.faults door.old }
{
    let crew = ThreadCrew::new(rt, alloc, NoGate);
    let kept = opened.named::<J>();
    let (status, kept) = serve_words(
        rt,
        alloc,
        words,
        limits,
        door,
        history.named::<J>(),
        kept,
        crew,
    );
    (status, kept.into_keeper())
}

/// Serves the desk as `serve_words` does, with a crew that keeps one job for its caller and runs the others in threads.
pub fn serve_in_threads<D: Door, K: Keeper + Send, R: Wait + Threads + Drop + Copy + Send + Sync>(
    rt: R,
    alloc: Global,
    words: &[String],
    limits: &Limits,
    door: &mut D,
    keeper: K,
) -> (u8, K)
    requires within { IsLimits limits.now }
    requires unused { D.accepted door.old ≡ 0 }
    ensures ends { EndsWith (serving_meant (map string_bytes words.now))
        (counts_of (D.refused door.old) (D.faults door.old) (D.accepted door.old))
        (counts_of (D.refused door.new) (D.faults door.new) (D.accepted door.new)) result.0 }
    ensures served { result.0 ≡ 0 → HasServed (serving_meant (map string_bytes words.now))
        (counts_of (D.refused door.new) (D.faults door.new) (D.accepted door.new)) }
    ensures desk { result.0 ≡ 0 → ServedAsSaid D.hears D.Ear.faults D.Ear.accepted
        (λ (desk : Working). TurnOf D.Ear.gives D.Ear.takes
        (wire_by D.Ear.Line.left D.Ear.Line.plan D.Ear.Line.written D.Ear.Line.room D.Ear.Line.faults)
        (Attends K.told K.faults K.refuses ⟦<ThreadCrew<R, NoGate> as Crew>⟧.exact desk.limits))
        (λ desk. desk.plan) (λ desk. desk.limits) limits.now (serving_meant (map string_bytes words.now)) }
    ensures words { result.0 ≡ 1 → serving_meant (map string_bytes words.now) ≡ None }
    ensures no_words { serving_meant (map string_bytes words.now) ≡ None → (result.0 ≡ 1) ⊎ (result.0 ≡ 8) }
    ensures untouched { result.0 ≡ 1 → door.new ≡ door.old }
    ensures refused { result.0 ≡ 2 → Rose (D.refused door.old) (D.refused door.new) }
    ensures fault { result.0 ≡ 4 → Rose (D.faults door.old) (D.faults door.new) }
    ensures refused_later { D.refused door.old ≤ D.refused door.new }
    ensures faults_later { D.faults door.old ≤ D.faults door.new }
    ensures refused_still { result.0 ≢ 2 → D.refused door.new ≡ D.refused door.old }
    ensures faults_still { result.0 ≢ 4 → D.faults door.new ≡ D.faults door.old }
{
    serve_named::<D, Brand, K, R>(
        rt,
        alloc,
        words,
        limits,
        door,
        BoardHistory::new(),
        Opened::new(keeper),
    )
}
