// A run of positions is settled, in order.
ghost use Rattle.std.specs.Prelude.{◌≡◌, ◌≤◌, ◌+◌, ◌++◌, ◌∷◌, [], ℕ, List, OnOk, IfErr, take, drop, length};
ghost use Rattle.std.specs.VecDeque.{deque_len};
ghost use Rattle.road_time.specs.declared.road.Tuple.{Tuple};
ghost use Rattle.road_time.specs.Sights.{Sight};
ghost use Rattle.road_time.specs.Tolls.{StretchTold};
ghost use Rattle.day_floor.specs.Answers.{history_of};
ghost use Rattle.day_floor.specs.Asking.{AskingPlan};
ghost use Rattle.day_floor.specs.Faults.{SinkFaults, KeeperFaults};
ghost use Rattle.road_io.specs.Levels.{Level};
ghost use Rattle.day_floor.specs.Slots.{slots_of};
ghost use Rattle.day_floor.specs.SettlingRuns.{StandsFor, InRun, HasSettled, Waits, StopsRun, is_digested};

use super::Settler;
use crate::due_slot::Slot;
use crate::fault::SettleFault;
use keep_office::Keeper;
use road_io::Sink;
use std::collections::VecDeque;
use std::thread::Threads;

impl Settler {
    /// Settles the first position that waits.
    fn settle_next<R: Threads, K: Keeper, O: Sink>(
        &mut self,
        rt: &R,
        slots: &mut VecDeque<Slot>,
        number: u32,
        keeper: &mut K,
        sink: &mut O,
    ) -> Result<(), SettleFault>
        requires { (finding : Sight → StretchTold) × (before : List Tuple) × (run : List Tuple) × (x : Tuple)
            × (rest : List Tuple) × (old : Level) × (plan : AskingPlan)
            × InRun self.old finding number (history_of (K.told keeper.old)) before run old
            (O.written sink.old, O.room sink.old) plan (K.plan keeper.old)
            × Waits slots.old.items finding (before ++ run) (x ∷ rest) }
        ensures ok { OnOk result ((finding : Sight → StretchTold) (before run : List Tuple) (x : Tuple)
            (rest : List Tuple)
            (old : Level) (plan : AskingPlan)
            → InRun self.old finding number (history_of (K.told keeper.old)) before run old
            (O.written sink.old, O.room sink.old) plan (K.plan keeper.old)
            → Waits slots.old.items finding (before ++ run) (x ∷ rest)
            → InRun self.new finding number (history_of (K.told keeper.new)) before (run ++ x ∷ []) old
            (O.written sink.new, O.room sink.new) plan (K.plan keeper.new)
            × Waits slots.new.items finding (before ++ (run ++ x ∷ [])) rest) }
        ensures err { IfErr result (λ fault.
            (finding : Sight → StretchTold) (before run : List Tuple) (x : Tuple) (rest : List Tuple) (old : Level)
            (plan : AskingPlan)
            → InRun self.old finding number (history_of (K.told keeper.old)) before run old
            (O.written sink.old, O.room sink.old) plan (K.plan keeper.old)
            → Waits slots.old.items finding (before ++ run) (x ∷ rest)
            → StopsRun fault finding number (history_of (K.told keeper.old)) before (run ++ x ∷ []) old
            (O.written sink.new, O.room sink.new) plan (K.plan keeper.new)) }
        ensures same { K.told keeper.new ≡ K.told keeper.old }
        ensures sink { SinkFaults (O.faults sink.old) (O.faults sink.new) (O.room sink.old) (O.room sink.new) result }
        ensures keeper { KeeperFaults (K.faults keeper.old) (K.faults keeper.new) (K.plan keeper.old)
            (K.plan keeper.new) result }
        ensures digested { is_digested self.new ≡ is_digested self.old }
    {
        let Some(slot) = slots.pop_front() else {
            unreachable!()
        };
        if let Err(fault) = self.settle_slot(rt, slot, number, keeper, sink) {
            return Err(fault);
        }
        self.settled += 1;
        Ok(())
    }

    /// Settles the first positions that wait, so many.
    pub(super) fn settle_run<R: Threads, K: Keeper, O: Sink>(
        &mut self,
        rt: &R,
        count: u32,
        slots: &mut VecDeque<Slot>,
        number: u32,
        keeper: &mut K,
        sink: &mut O,
    ) -> Result<(), SettleFault>
        requires waits { (finding : Sight → StretchTold) × (before : List Tuple) × (rest : List Tuple)
            × StandsFor self.old finding number (history_of (K.told keeper.old)) before
            × Waits slots.old.items finding before rest × (count ≤ length rest) }
        ensures ok { OnOk result ((finding : Sight → StretchTold) (before rest : List Tuple)
            → StandsFor self.old finding number (history_of (K.told keeper.old)) before
            → Waits slots.old.items finding before rest → count ≤ length rest
            → InRun self.new finding number (history_of (K.told keeper.new)) before (take count rest)
            (O.written sink.old, O.room sink.old) (O.written sink.new, O.room sink.new) (K.plan keeper.old)
            (K.plan keeper.new)
            × Waits slots.new.items finding (before ++ take count rest) (drop count rest)) }
        ensures err { IfErr result (λ fault. (finding : Sight → StretchTold) (before rest : List Tuple)
            → StandsFor self.old finding number (history_of (K.told keeper.old)) before
            → Waits slots.old.items finding before rest → count ≤ length rest
            → StopsRun fault finding number (history_of (K.told keeper.old)) before (take count rest)
            (O.written sink.old, O.room sink.old) (O.written sink.new, O.room sink.new) (K.plan keeper.old)
            (K.plan keeper.new)) }
        ensures same { K.told keeper.new ≡ K.told keeper.old }
        ensures sink { SinkFaults (O.faults sink.old) (O.faults sink.new) (O.room sink.old) (O.room sink.new) result }
        ensures keeper { KeeperFaults (K.faults keeper.old) (K.faults keeper.new) (K.plan keeper.old)
            (K.plan keeper.new) result }
        ensures digested { is_digested self.new ≡ is_digested self.old }
    {
        for _ in 0..count {
            if let Err(fault) = self.settle_next(rt, slots, number, keeper, sink) {
                return Err(fault);
            }
        }
        Ok(())
    }

    /// Settles the first positions that wait, so many, and writes all of their text.
    pub(super) fn write_run<R: Threads, K: Keeper, O: Sink>(
        &mut self,
        rt: &R,
        count: u32,
        slots: &mut VecDeque<Slot>,
        number: u32,
        keeper: &mut K,
        sink: &mut O,
    ) -> Result<(), SettleFault>
        requires waits { (finding : Sight → StretchTold) × (before : List Tuple) × (rest : List Tuple)
            × StandsFor self.old finding number (history_of (K.told keeper.old)) before
            × Waits slots.old.items finding before rest × (count ≤ length rest) }
        ensures ok { OnOk result ((finding : Sight → StretchTold) (before rest : List Tuple)
            → StandsFor self.old finding number (history_of (K.told keeper.old)) before
            → Waits slots.old.items finding before rest → count ≤ length rest
            → HasSettled self.new finding number (history_of (K.told keeper.new)) before (take count rest)
            (O.written sink.old, O.room sink.old) (O.written sink.new, O.room sink.new) (K.plan keeper.old)
            (K.plan keeper.new)
            × Waits slots.new.items finding (before ++ take count rest) (drop count rest)) }
        ensures err { IfErr result (λ fault. (finding : Sight → StretchTold) (before rest : List Tuple)
            → StandsFor self.old finding number (history_of (K.told keeper.old)) before
            → Waits slots.old.items finding before rest → count ≤ length rest
            → StopsRun fault finding number (history_of (K.told keeper.old)) before (take count rest)
            (O.written sink.old, O.room sink.old) (O.written sink.new, O.room sink.new) (K.plan keeper.old)
            (K.plan keeper.new)) }
        ensures same { K.told keeper.new ≡ K.told keeper.old }
        ensures sink { SinkFaults (O.faults sink.old) (O.faults sink.new) (O.room sink.old) (O.room sink.new) result }
        ensures keeper { KeeperFaults (K.faults keeper.old) (K.faults keeper.new) (K.plan keeper.old)
            (K.plan keeper.new) result }
        ensures digested { is_digested self.new ≡ is_digested self.old }
    {
        if let Err(fault) = self.settle_run(rt, count, slots, number, keeper, sink) {
            return Err(fault);
        }
        self.printer.flush(rt, sink)
    }
}
