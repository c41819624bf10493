// A listener in memory.
ghost use Rattle.std.specs.Prelude.{◌≡◌, ◌⊎◌, ◌↔◌, ◌∷◌, ◌+◌, ◌<◌, ◌≤◌, ◌-◌, ◌^◌, ◌==◌, ℕ, [], true};
ghost use Rattle.std.specs.Prelude.{IsErr, IsNone, IfOk, IfSome, IfNone, OnOk, OnErr};
ghost use Rattle.std.specs.List.{list_any};
ghost use Rattle.road_io.specs.Faults.{HasCause, Rose};
ghost use Rattle.road_io.specs.Plans.{planned};
ghost use Rattle.serve_loops.specs.MemListeners.{links_of, plan_of, accepted_by, faults_of, GivesLink, TakesLink};

use crate::listener::Listener;
use crate::turn::NoTurn;
use road_io::{Failed, Link, MemLink};
use road_time::NoMemory;
use std::alloc::Global;

/// Gives links in memory, in their order. It fails exactly where none is left and at the calls that it is told of.
#[derive(Drop)]
pub struct MemListener {
    links: Vec<MemLink>,
    fails: Vec<u32>,
    calls: u64,
    accepted: u64,
    faults: u64,
}

impl MemListener {
    /// Gives these links; the calls whose numbers from 0 stand in `fails` fail.
    pub fn new(alloc: Global, links: Vec<MemLink>, fails: &[u32]) -> Result<MemListener, NoMemory>
        ensures links { IfOk result (λ l. links_of l ≡ links.items) }
        ensures plan { IfOk result (λ l. (n : ℕ) → plan_of l n ≡ list_any (λ f. f == n) fails.now) }
        ensures unused { IfOk result (λ l. accepted_by l ≡ 0) }
        ensures faultless { IfOk result (λ l. faults_of l ≡ 0) }
    {
        let fails = Vec::from_slice(alloc, fails)?;
        let mut links = links;
        links.reverse();
        Ok(MemListener {
            links,
            fails,
            calls: 0,
            accepted: 0,
            faults: 0,
        })
    }

    /// How many links it gave.
    pub fn accepted(&self) -> u64
        ensures { result ≡ accepted_by self.now }
    {
        self.accepted
    }

    /// How many of its calls failed.
    pub fn faults(&self) -> u64
        ensures { result ≡ faults_of self.now }
    {
        self.faults
    }

    /// The link that comes next; none where none is left or the call is to fail.
    fn next(&mut self) -> Option<MemLink>
        ensures exact { IsNone result ↔ ((plan_of self.old 0 ≡ true) ⊎ (links_of self.old ≡ [])) }
        ensures given { IfSome result (λ line. links_of self.old ≡ line ∷ links_of self.new) }
        ensures kept { IfNone result (links_of self.new ≡ links_of self.old) }
        ensures planned { (n : ℕ) → plan_of self.new n ≡ plan_of self.old (n + 1) }
        ensures accepted { accepted_by self.new ≡ accepted_by self.old }
        ensures faults { faults_of self.new ≡ faults_of self.old }
    {
        let (failing, next) = turn(&self.fails, self.calls);
        self.calls = next;
        if failing {
            return None;
        }
        self.links.pop()
    }
}

/// Whether a call's number stands among those that fail, and the number of the call after it.
fn turn(fails: &[u32], call: u64) -> (bool, u64)
    ensures fails { result.0 ≡ planned fails.now call 0 }
    ensures next { (n : ℕ) → planned fails.now result.1 n ≡ planned fails.now call (n + 1) }
{
    let failing = fails.iter().any(|f| u64::from(*f) == call);
    (failing, call.saturating_add(1))
}

impl Listener for MemListener {
    type Line = MemLink;

    type Pass = NoTurn;

    ghost faults = { faults_of };

    ghost accepted = { accepted_by };

    ghost gives = { GivesLink };

    ghost takes = { TakesLink };

    fn accept(&mut self) -> Result<MemLink, Failed>
        requires room { accepted_by self.old < 2 ^ 64 - 1 }
        ensures accepts { OnOk result (accepted_by self.new ≡ accepted_by self.old + 1) }
        ensures refuses { OnErr result (accepted_by self.new ≡ accepted_by self.old) }
        ensures cause { HasCause (faults_of self.old) (faults_of self.new) result }
        ensures exact { IsErr result ↔ ((plan_of self.old 0 ≡ true) ⊎ (links_of self.old ≡ [])) }
        ensures gives { IfOk result (λ line. GivesLink self.old self.new line) }
        ensures kept { OnErr result (links_of self.new ≡ links_of self.old) }
        ensures planned { (n : ℕ) → plan_of self.new n ≡ plan_of self.old (n + 1) }
    {
        match self.next() {
            Some(link) => {
                self.accepted += 1;
                Ok(link)
            }
            None => {
                self.faults = self.faults.saturating_add(1);
                Err(Failed)
            }
        }
    }

    fn pass(&self, _line: &mut MemLink) -> NoTurn {
        NoTurn
    }

    fn end(&mut self, line: MemLink)
        ensures accepted { accepted_by self.new ≡ accepted_by self.old }
        ensures faults { faults_of self.new ≡ faults_of self.old }
        ensures takes { TakesLink self.old self.new line }
        ensures same { self.new ≡ self.old }
    {
        let mut line = line;
        line.finish();
    }

    fn give_up(&mut self)
        ensures accepted { accepted_by self.new ≡ accepted_by self.old }
        ensures later { faults_of self.old ≤ faults_of self.new }
        ensures cause { Rose (faults_of self.old) (faults_of self.new) }
        ensures links { links_of self.new ≡ links_of self.old }
    {
        self.faults = self.faults.saturating_add(1);
    }
}
