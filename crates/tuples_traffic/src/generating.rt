// The file of a plan.
ghost use Rattle.std.specs.Prelude.{◌≡◌, ◌↔◌, ℕ, Some, Err, IfOk, OnOk, length};
ghost use Rattle.road_time.specs.Order.{IsByTime};
ghost use Rattle.road_time.specs.Text.{lines_text};
ghost use Rattle.road_io.specs.Blame.{FaultsByRoom};
ghost use Rattle.road_io.specs.Rooms.{Takes, Refuses};
ghost use Rattle.tuples_traffic.specs.declared.plan.GenFault.TheVariants.{Size, WriteFault};
ghost use Rattle.tuples_traffic.specs.Plans.{field_out, InRange};
ghost use Rattle.tuples_traffic.specs.Traffic.{generated, file_of};
ghost use Rattle.tuples_traffic.specs.Endings.{WroteFile};

use crate::plan::{GenFault, GenPlan};
use crate::traffic::tuples_of;
use road_io::{Failed, Sink, put_all};
use road_time::{NoMemory, Tuple};
use std::alloc::Global;
use tuples_text::put_tuple;

/// Puts tuples in the order of Time; those of a second stay in their order.
fn sort(tuples: &mut Vec<Tuple>) -> Result<(), NoMemory>
    ensures { OnOk result (IsByTime tuples.old.items tuples.new.items) }
{
    tuples.sort_by_key(|tuple| tuple.time())?;
    Ok(())
}

/// The lines of tuples.
fn lines_of_tuples(alloc: Global, tuples: &[Tuple]) -> Result<Vec<u8>, NoMemory>
    ensures { IfOk result (λ text. text.items ≡ lines_text tuples.now) }
{
    let mut text = Vec::new(alloc);
    for tuple in tuples {
        put_tuple(&mut text, tuple)?;
    }
    Ok(text)
}

/// A file, and how many lines it has.
#[derive(Drop)]
struct FileText {
    lines: u64,
    text: Vec<u8>,
}

/// The file of a plan.
fn make_file(alloc: Global, plan: &GenPlan) -> Result<FileText, NoMemory>
    requires { InRange plan.now }
    ensures lines { IfOk result (λ w. w.lines ≡ length (generated plan.now)) }
    ensures text { IfOk result (λ w. w.text.items ≡ file_of plan.now) }
{
    let mut tuples = tuples_of(alloc, plan)?;
    sort(&mut tuples)?;
    let text = lines_of_tuples(alloc, tuples.as_slice())?;
    Ok(FileText {
        lines: tuples.len() as u64,
        text,
    })
}

/// Writes the file of a plan, and answers its number of lines.
pub fn generate<O: Sink>(alloc: Global, plan: &GenPlan, sink: &mut O) -> Result<u64, GenFault>
    ensures wrote { WroteFile result plan.now (O.written sink.old) (O.written sink.new) }
    ensures size { (field : ℕ) → (result ≡ Err (Size field)) ↔ (field_out plan.now ≡ Some field) }
    ensures took { OnOk result (Takes (O.room sink.old) (O.room sink.new) (length (file_of plan.now))) }
    ensures full { result ≡ Err WriteFault → Refuses (O.room sink.old) (O.room sink.new) (length (file_of plan.now)) }
    ensures sink { FaultsByRoom (O.faults sink.old) (O.faults sink.new) (O.room sink.old) (O.room sink.new)
        (result ≡ Err WriteFault) }
{
    if let Some(field) = plan.out_of_range() {
        return Err(GenFault::Size(field));
    }
    let Ok(file) = make_file(alloc, plan) else {
        return Err(GenFault::NoMemory);
    };
    match put_all(sink, file.text.as_slice()) {
        Ok(()) => Ok(file.lines),
        Err(Failed) => Err(GenFault::WriteFault),
    }
}
