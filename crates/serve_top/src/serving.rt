// The server, by its words.
ghost use Rattle.std.specs.Prelude.{◌≡◌, ◌≢◌, ◌≤◌, ◌⊎◌, [], None, map, string_bytes};
ghost use Rattle.road_io.specs.Faults.{Rose};
ghost use Rattle.road_time.specs.Fits.{IsLimits};
ghost use Rattle.serve_top.specs.Meaning.{serving_meant};
ghost use Rattle.serve_loops.specs.Wires.{wire_by};
ghost use Rattle.serve_loops.specs.Acceptors.{TurnOf};
ghost use Rattle.serve_top.specs.Endings.{counts_of, EndsWith, HasServed};
ghost use Rattle.serve_top.specs.Served.{ServedAsSaid};

use crate::desk_crew::DeskCrew;
use crate::door::Door;
use crate::ending::ServerEnd;
use crate::opening::serve_as;
use crate::words::read_words;
use office_words::WordFault;
use road_time::Limits;
use serve_board::{BoardNaming, NamedHistory, NamedReader, NamedWriter};
use std::alloc::Global;
use std::sync::Wait;
use std::thread::Threads;

/// Serves the desk by the words after the program's name, and gives the exit status, and the keeper back, which the
/// caller is to close. The live board is made of the history. The door has accepted nothing before. 0 comes only where
/// the door has accepted as many connections as the words' sessions, 1 exactly where the words are of no stated form, 2
/// exactly where an opening was refused, 4 exactly where a listener failed, 8 for want of memory, and only where none of
/// these did. It waits.
pub fn serve_words<
    D: Door,
    K,
    J: BoardNaming + Send + Sync,
    C: DeskCrew<K, NamedWriter<J, R>, NamedReader<J>, Q, R> + Drop,
    R: Wait + Threads + Drop + Copy + Send + Sync,
    Q: Drop + Send,
>(
    rt: R,
    alloc: Global,
    words: &[String],
    limits: &Limits,
    door: &mut D,
    history: NamedHistory<J>,
    keeper: K,
    crew: C,
) -> (u8, K)
    requires within { IsLimits limits.now }
    requires idle { C.out crew ≡ [] }
    requires unused { D.accepted door.old ≡ 0 }
    ensures ends { EndsWith (serving_meant (map string_bytes words.now))
        (counts_of (D.refused door.old) (D.faults door.old) (D.accepted door.old))
        (counts_of (D.refused door.new) (D.faults door.new) (D.accepted door.new)) result.0 }
    ensures served { result.0 ≡ 0 → HasServed (serving_meant (map string_bytes words.now))
        (counts_of (D.refused door.new) (D.faults door.new) (D.accepted door.new)) }
    ensures desk { result.0 ≡ 0 → ServedAsSaid D.hears D.Ear.faults D.Ear.accepted
        (λ (desk : C.Shared). TurnOf D.Ear.gives D.Ear.takes
        (wire_by D.Ear.Line.left D.Ear.Line.plan D.Ear.Line.written D.Ear.Line.room D.Ear.Line.faults) (C.Shared.attends desk))
        C.works C.bounds limits.now (serving_meant (map string_bytes words.now)) }
    ensures words { result.0 ≡ 1 → serving_meant (map string_bytes words.now) ≡ None }
    ensures no_words { serving_meant (map string_bytes words.now) ≡ None → (result.0 ≡ 1) ⊎ (result.0 ≡ 8) }
    ensures untouched { result.0 ≡ 1 → door.new ≡ door.old }
    ensures refused { result.0 ≡ 2 → Rose (D.refused door.old) (D.refused door.new) }
    ensures fault { result.0 ≡ 4 → Rose (D.faults door.old) (D.faults door.new) }
    ensures refused_later { D.refused door.old ≤ D.refused door.new }
    ensures faults_later { D.faults door.old ≤ D.faults door.new }
    ensures refused_still { result.0 ≢ 2 → D.refused door.new ≡ D.refused door.old }
    ensures faults_still { result.0 ≢ 4 → D.faults door.new ≡ D.faults door.old }
{
    let serving = match read_words(alloc, words) {
        Ok(serving) => serving,
        Err(WordFault::Words) => return (ServerEnd::Words.status(), keeper),
        Err(WordFault::NoMemory) => return (ServerEnd::NoMemory.status(), keeper),
    };
    let (end, keeper) = serve_as(rt, alloc, &serving, limits, door, history, keeper, crew);
    (end.status(), keeper)
}
