// Which notices of a second are still to come.
ghost use Rattle.std.specs.Prelude.{◌≡◌, ◌+◌, ◌-◌, IfOk, OnOk, true, false, nat_lt, if◌then◌else◌};
ghost use Rattle.road_time.specs.declared.road.Notice.{Notice as NoticeValue};
ghost use Rattle.ways_audit.specs.declared.numbers.Numbers.{Numbers as NumbersValue};
ghost use Rattle.ways_audit.specs.Seconds.{same_numbers, how_many, still, less, count_in};

use crate::numbers::{Numbers, numbers_of};
use indexmap::IndexMap;
use road_time::{NoMemory, Notice};
use std::alloc::Global;
use std::marker::Model;

/// How often there are these numbers.
fn count_at(counts: &IndexMap<Numbers, u32>, numbers: Numbers) -> u32
    ensures { result ≡ how_many counts.now.entries numbers }
{
    counts.get(&numbers).copied().unwrap_or(0)
}

/// These numbers once more.
fn one_more(counts: &mut IndexMap<Numbers, u32>, numbers: Numbers) -> Result<(), NoMemory>
    ensures { OnOk result ((p : NumbersValue) → how_many counts.new.entries p ≡
        (if same_numbers numbers p then how_many counts.old.entries numbers + 1 else how_many counts.old.entries p)) }
{
    let more = count_at(counts, numbers).checked_add(1).ok_or(NoMemory)?;
    counts.insert(numbers, more)?;
    Ok(())
}

/// These numbers once less.
fn one_less(counts: &mut IndexMap<Numbers, u32>, numbers: Numbers)
    ensures { (p : NumbersValue) → how_many counts.new.entries p ≡
        (if same_numbers numbers p then how_many counts.old.entries numbers - 1 else how_many counts.old.entries p) }
{
    let count = count_at(counts, numbers);
    if count < 2 {
        counts.swap_remove(&numbers);
    } else {
        if let Some(kept) = counts.get_mut(&numbers) {
            *kept = count - 1;
        }
    }
}

/// The notices of a second that are still to come. Contracts see it as a list of numbers, and how often each is.
#[derive(Drop)]
pub struct StillToCome {
    counts: IndexMap<Numbers, u32>,
}

impl Model for StillToCome {
    ghost use Rattle.std.specs.Prelude.{ℕ, List};
    ghost use Rattle.ways_audit.specs.declared.numbers.Numbers.{Numbers};

    ghost Value = { List (Numbers × ℕ) };

    ghost view = { λ s. s.counts.entries };
}

impl StillToCome {
    /// All these notices are.
    pub fn new(alloc: Global, notices: &[Notice]) -> Result<Self, NoMemory>
        ensures { IfOk result (λ s. (x : NoticeValue) → still s x ≡ count_in notices.now x) }
    {
        let mut counts = IndexMap::new(alloc);
        for notice in notices {
            one_more(&mut counts, numbers_of(notice))?;
        }
        Ok(StillToCome { counts })
    }

    /// Whether the notice is still to come. From now on it is once less.
    pub fn take(&mut self, notice: &Notice) -> bool
        ensures found { result ≡ nat_lt 0 (still self.old notice.now) }
        ensures taken { result ≡ true → (y : NoticeValue) → still self.new y ≡ less (still self.old) notice.now y }
        ensures kept { result ≡ false → self.new ≡ self.old }
    {
        let numbers = numbers_of(notice);
        if count_at(&self.counts, numbers) == 0 {
            return false;
        }
        one_less(&mut self.counts, numbers);
        true
    }
}
