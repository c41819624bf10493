// What was found, beside the tuples that wait.
ghost use Rattle.std.specs.Prelude.{◌≡◌, ◌≤◌, ◌<◌, ◌+◌, ◌++◌, ◌∷◌, [], ℕ, List, All, length, map};
ghost use Rattle.std.specs.List.{AllByRecursion};
ghost use Rattle.std.specs.VecDeque.{deque_len};
ghost use Rattle.road_time.specs.declared.road.Tuple.{Tuple};
ghost use Rattle.road_time.specs.Tolls.{StretchTold as Told};
ghost use Rattle.road_time.specs.Day.{given};
ghost use Rattle.ways_expressway.specs.Findings.{shown, found_at};
ghost use Rattle.day_floor.specs.Sound.{AreFresh, ReportAt};
ghost use Rattle.day_floor.specs.Slots.{slots_of};

use crate::due_slot::{Slot, fill as fill_slot};
use crate::slot::said;
use std::collections::VecDeque;
use ways_expressway::Finding;

/// Puts a finding beside its tuple.
fn fill_one(slots: &mut VecDeque<Slot>, settled: u32, finding: Finding)
    requires low { settled ≤ finding.position }
    requires high { finding.position < settled + deque_len slots.old }
    ensures len { deque_len slots.new ≡ deque_len slots.old }
    ensures filled { (found : List (ℕ × Told)) (before rest : List Tuple)
        → slots.old.items ≡ slots_of (given found) before rest → length before ≡ settled
        → found_at finding.position found ≡ [] → ReportAt (before ++ rest) finding.position
        → slots.new.items ≡ slots_of (given (found ++ shown finding ∷ [])) before rest }
{
    fill_slot(slots, (finding.position - settled) as usize, said(finding));
}

/// Puts findings beside their tuples.
pub(crate) fn fill(slots: &mut VecDeque<Slot>, settled: u32, findings: &[Finding])
    requires { All (λ f. (settled ≤ f.position) × (f.position < settled + deque_len slots.old)) findings.now }
    ensures len { deque_len slots.new ≡ deque_len slots.old }
    ensures filled { (found : List (ℕ × Told)) (before rest : List Tuple)
        → slots.old.items ≡ slots_of (given found) before rest → length before ≡ settled
        → AreFresh found (map shown findings.now)
        → AllByRecursion (λ f. ReportAt (before ++ rest) f.0) (map shown findings.now)
        → slots.new.items ≡ slots_of (given (found ++ map shown findings.now)) before rest }
{
    for finding in findings {
        fill_one(slots, settled, *finding);
    }
}
