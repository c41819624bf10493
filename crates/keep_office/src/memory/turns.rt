// Calls that fail where they are told to.
ghost use Rattle.std.specs.Prelude.{ℕ, ◌≡◌, ◌+◌, ◌≤◌, ◌==◌, true, false, IfOk};
ghost use Rattle.std.specs.List.{list_any};
ghost use Rattle.road_io.specs.Faults.{Rose};
ghost use Rattle.keep_office.specs.Memory.{planned_in, faults_in};
ghost use Rattle.road_io.specs.Plans.{planned};

use super::Failing;
use road_time::NoMemory;
use std::alloc::Global;

impl Failing {
    /// The calls fail whose numbers from 0 stand in `fails`.
    pub fn new(alloc: Global, fails: &[u32]) -> Result<Failing, NoMemory>
        ensures plan { IfOk result (λ f. (n : ℕ) → planned_in f n ≡ list_any (λ call. call == n) fails.now) }
        ensures faultless { IfOk result (λ f. faults_in f ≡ 0) }
    {
        Ok(Failing {
            fails: Vec::from_slice(alloc, fails)?,
            calls: 0,
            faults: 0,
        })
    }

    /// Whether the next call is to fail. Nothing is counted yet.
    pub fn step(&mut self) -> bool
        ensures fails { result ≡ planned_in self.old 0 }
        ensures next { (n : ℕ) → planned_in self.new n ≡ planned_in self.old (n + 1) }
        ensures still { faults_in self.new ≡ faults_in self.old }
    {
        let (failing, next) = turn_of(&self.fails, self.calls);
        self.calls = next;
        failing
    }

    /// Counts a call that failed.
    pub fn count(&mut self)
        ensures same { (n : ℕ) → planned_in self.new n ≡ planned_in self.old n }
        ensures later { faults_in self.old ≤ faults_in self.new }
        ensures counted { Rose (faults_in self.old) (faults_in self.new) }
    {
        self.faults = self.faults.saturating_add(1);
    }

    /// Whether the next call fails, which is counted then.
    pub fn turn(&mut self) -> bool
        ensures fails { result ≡ planned_in self.old 0 }
        ensures next { (n : ℕ) → planned_in self.new n ≡ planned_in self.old (n + 1) }
        ensures later { faults_in self.old ≤ faults_in self.new }
        ensures counted { result ≡ true → Rose (faults_in self.old) (faults_in self.new) }
        ensures still { result ≡ false → faults_in self.new ≡ faults_in self.old }
    {
        if !self.step() {
            return false;
        }
        self.count();
        true
    }
}

/// Whether a call's number stands among those that fail, and the number of the call after it.
fn turn_of(fails: &[u32], call: u64) -> (bool, u64)
    ensures fails { result.0 ≡ planned fails.now call 0 }
    ensures next { (n : ℕ) → planned fails.now result.1 n ≡ planned fails.now call (n + 1) }
{
    let failing = fails.iter().any(|f| u64::from(*f) == call);
    (failing, call.saturating_add(1))
}
