// The bytes of a day, cut into lines that are checked.
ghost use Rattle.std.specs.Prelude.{◌≡◌, ◌≤◌, ◌++◌, ◌∷◌, [], ℕ, List, IfOk, OnOk, length, take, drop, true, not};
ghost use Rattle.std.specs.Prelude.{◌==◌, ◌<◌};
ghost use Rattle.std.specs.Prelude.{◌+◌};
ghost use Rattle.std.specs.List.{list_all};
ghost use Rattle.road_time.specs.declared.day.Limits.{Limits as LimitsValue};
ghost use Rattle.road_time.specs.Lines.{lines_of};
ghost use Rattle.day_reading.specs.Checked.{checked};
ghost use Rattle.day_reading.specs.Checking.{Tallies, IsChecking, HasChecked};

use crate::judging::judge;
use crate::tally::Tally;
use memchr::memchr;
use road_time::{Limits, NoMemory};
use std::alloc::Global;
use tuples_text::Gatekeeper;

/// So many bytes of a line are held, at most: one more than a line may have.
const MOST_HELD: usize = 201;

/// Checks lines, of the last of which the first bytes are held.
#[derive(Drop)]
pub struct Checker {
    line_limit: u32,
    gate: Gatekeeper,
    tally: Tally,
    line: Vec<u8>,
}

/// The first bytes, at most so many.
fn first(bytes: &[u8], most: usize) -> &[u8]
    ensures { result.now ≡ take most bytes.now }
{
    if bytes.len() > most {
        &bytes[..most]
    } else {
        bytes
    }
}

/// What stands behind a byte.
fn behind(bytes: &[u8], at: usize) -> &[u8]
    requires { at < length bytes.now }
    ensures { result.now ≡ drop (at + 1) bytes.now }
{
    &bytes[at + 1..]
}

/// Holds more bytes of a line, as far as there is room.
fn hold(line: &mut Vec<u8>, bytes: &[u8]) -> Result<(), NoMemory>
    ensures { OnOk result ((text : List ℕ) → line.old.items ≡ take 201 text
        → line.new.items ≡ take 201 (text ++ bytes.now)) }
{
    let room = MOST_HELD.saturating_sub(line.as_slice().len());
    line.extend_from_slice(first(bytes, room))?;
    Ok(())
}

impl Checker {
    /// No line was checked. Lines may come late by up to so many seconds.
    pub fn new(alloc: Global, limits: &Limits, late: u8) -> Checker
        requires { late ≤ 120 }
        ensures { HasChecked result limits.now late [] }
    {
        Checker {
            line_limit: limits.lines,
            gate: Gatekeeper::new(alloc, limits, late),
            tally: Tally::new(alloc),
            line: Vec::new(alloc),
        }
    }

    /// Checks the line whose text is held, and begins the next.
    fn end_line(&mut self) -> Result<(), NoMemory>
        ensures { OnOk result ((limits : LimitsValue) (late : ℕ) (done : List (List ℕ)) (text : List ℕ)
            → IsChecking self.old limits late done text → IsChecking self.new limits late (done ++ text ∷ []) []) }
    {
        let good = self.tally.good();
        let cause = judge(&mut self.gate, self.line_limit, good, self.line.as_slice())?;
        self.tally.count(cause)?;
        self.line.clear();
        Ok(())
    }

    /// Takes the rest of a line and its end, and checks it.
    fn take_end(&mut self, bytes: &[u8]) -> Result<(), NoMemory>
        ensures { list_all (λ b. not (b == 10)) bytes.now ≡ true
            → OnOk result ((limits : LimitsValue) (late : ℕ) (taken : List ℕ) → HasChecked self.old limits late taken
            → HasChecked self.new limits late (taken ++ (bytes.now ++ 10 ∷ []))) }
    {
        hold(&mut self.line, bytes)?;
        self.end_line()?;
        Ok(())
    }

    /// Takes further bytes.
    pub fn take(&mut self, piece: &[u8]) -> Result<(), NoMemory>
        ensures { OnOk result ((limits : LimitsValue) (late : ℕ) (taken : List ℕ) → HasChecked self.old limits late taken
            → HasChecked self.new limits late (taken ++ piece.now)) }
    {
        let mut rest = piece;
        while let Some(at) = memchr(b'\n', rest) {
            self.take_end(&rest[..at])?;
            rest = behind(rest, at);
        }
        hold(&mut self.line, rest)?;
        Ok(())
    }

    /// What was found of the lines that were checked.
    fn into_tally(self) -> Tally
        ensures { result ≡ self.tally }
    {
        let Checker {
            line_limit: _,
            gate: _,
            tally,
            line: _,
        } = self;
        tally
    }

    /// What was found of the lines, where no further byte comes.
    pub fn end(mut self) -> Result<Tally, NoMemory>
        ensures { (limits : LimitsValue) (late : ℕ) (bytes : List ℕ) → HasChecked self limits late bytes
            → IfOk result (λ tally. Tallies tally (checked limits late (lines_of bytes))) }
    {
        if self.line.as_slice().len() == 0 {
            return Ok(self.into_tally());
        }
        self.end_line()?;
        Ok(self.into_tally())
    }
}
