// Cutting the bytes of a source into lines: the steps.
ghost use Rattle.std.specs.Prelude.{◌≡◌, ◌≢◌, ◌+◌, ◌-◌, ◌<◌, ◌≤◌, ◌^◌, [], List, ℕ, Some, None, Ok, Err, IfOk, IsOk};
ghost use Rattle.std.specs.Prelude.{OnOk, IfSome, IfNone, Option, length, take, drop, vec_len, true, false};
ghost use Rattle.std.specs.List.{slice_range};
ghost use Rattle.std.specs.Io.KnownBytes.{ReadConsumes, Consumes, Keeps, IsAtEnd};
ghost use Rattle.road_io.specs.Faults.{HasCause, Rose};
ghost use Rattle.road_io.specs.Plans.{AsPlanned, NeverFails};
ghost use Rattle.road_io.specs.Cutter.{IsCut, Cuts, held, ahead, line_of, line_number, fault_of, rest_of, StandsCut};
ghost use Rattle.road_io.specs.declared.cutter.LineFault.{LineFault};
ghost use Rattle.road_io.specs.declared.cutter.LineFault.TheVariants.{ReadFault};
ghost use Rattle.road_io.specs.declared.cutter.Cut.TheVariants.{More};

use super::{Cut, LineCutter, LineFault};
use crate::source::{Failed, Source};
use memchr::memchr;
use road_time::NoMemory;
use std::alloc::Global;

/// The first 201 bytes, or all.
#[inline(always)]
fn window(bytes: &[u8]) -> &[u8]
    ensures { result.now ≡ take 201 bytes.now }
{
    if bytes.len() > 201 {
        &bytes[..201]
    } else {
        bytes
    }
}

/// What stands first in the bytes.
#[inline(always)]
fn first_cut(bytes: &[u8]) -> Cut
    ensures { IsCut result bytes.now }
{
    match memchr(b'\n', window(bytes)) {
        Some(at) => Cut::Line(at),
        None => {
            if bytes.len() > 200 {
                Cut::Long
            } else {
                Cut::More
            }
        }
    }
}

/// Moves a part of the buffer to its front, and reads behind it.
fn read_behind<S: Source>(
    buf: &mut [u8],
    start: usize,
    end: usize,
    source: &mut S,
) -> Result<usize, Failed>
    requires part { start ≤ end }
    requires inside { end ≤ length buf.old }
    requires room { end - start < length buf.old }
    ensures len { length buf.new ≡ length buf.old }
    ensures bound { IfOk result (λ n. end - start + n ≤ length buf.new) }
    ensures kept { take (end - start) buf.new ≡ slice_range buf.old start end }
    ensures bytes { ReadConsumes (S.left source.old) (S.left source.new) result (drop (end - start) buf.new) }
    ensures planned { AsPlanned (S.plan source.old) (S.plan source.new) result }
    ensures same { S.name source.new ≡ S.name source.old }
    ensures cause { HasCause (S.faults source.old) (S.faults source.new) result }
{
    let kept = end - start;
    buf.copy_within(start..end, 0);
    source.read(&mut buf[kept..])
}

impl LineCutter {
    /// A cutter before its first line.
    pub fn new(alloc: Global) -> Result<LineCutter, NoMemory>
        ensures { IfOk result (λ c. (held c ≡ []) × (line_of c ≡ []) × (rest_of c ≡ []) × (line_number c ≡ 0)
            × (fault_of c ≡ None)) }
    {
        let buf = vec![in alloc; 0u8; 65_536]?;
        Ok(LineCutter {
            buf,
            from: 0,
            to: 0,
            start: 0,
            end: 0,
            number: 0,
            fault: None,
        })
    }

    /// The current line.
    #[inline(always)]
    pub fn line(&self) -> &[u8]
        ensures { result.now ≡ line_of self.now }
    {
        &self.buf[self.from..self.to]
    }

    /// The bytes that the last `advance` took, the line's end included.
    pub fn rest(&self) -> &[u8]
        ensures { result.now ≡ rest_of self.now }
    {
        &self.buf[self.from..self.start]
    }

    /// The number of the current line, from 1.
    pub fn number(&self) -> u64
        ensures { result ≡ line_number self.now }
    {
        self.number
    }

    /// Reads behind the bytes that are held; false at the end.
    #[cold]
    #[inline(never)]
    fn fill<S: Source>(&mut self, source: &mut S) -> Result<bool, Failed>
        requires { length (held self.old) ≤ 200 }
        ensures ahead { Keeps (ahead self.old (S.left source.old)) (ahead self.new (S.left source.new)) }
        ensures more { result ≡ Ok true → length (held self.old) < length (held self.new) }
        ensures ended { result ≡ Ok false → (held self.new ≡ held self.old) × IsAtEnd (S.left source.new) }
        ensures number { line_number self.new ≡ line_number self.old }
        ensures fault { fault_of self.new ≡ fault_of self.old }
        ensures none { rest_of self.new ≡ [] }
        ensures sure { NeverFails (S.plan source.old) → IsOk result × NeverFails (S.plan source.new) }
        ensures same { S.name source.new ≡ S.name source.old }
        ensures cause { HasCause (S.faults source.old) (S.faults source.new) result }
    {
        let kept = self.end - self.start;
        let answer = read_behind(self.buf.as_mut_slice(), self.start, self.end, source);
        self.from = 0;
        self.to = 0;
        self.start = 0;
        self.end = kept;
        let count = answer?;
        self.end = kept + count;
        Ok(count > 0)
    }

    /// Takes what stands first in the bytes that are held; none where more bytes are needed.
    #[inline(always)]
    fn cut_held(&mut self) -> Option<Result<bool, LineFault>>
        requires number { line_number self.old + 1 < 2 ^ 64 }
        requires open { fault_of self.old ≡ None }
        ensures cuts { IfSome result (λ answer. (left : Option (List ℕ))
            → Cuts answer (ahead self.old left) (ahead self.new left) (line_of self.new)) }
        ensures stands { IfSome result (λ answer. StandsCut answer (line_number self.old) self.new) }
        ensures taken { result ≡ Some (Ok true) → (left : Option (List ℕ))
            → Consumes (ahead self.old left) (ahead self.new left) (rest_of self.new) }
        ensures unread { IfSome result (λ answer. answer ≢ Err ReadFault) }
        ensures more { IfNone result ((self.new ≡ self.old) × IsCut More (held self.old)) }
    {
        match first_cut(&self.buf[self.start..self.end]) {
            Cut::Line(count) => {
                self.from = self.start;
                self.to = self.start + count;
                self.start = self.start + count + 1;
                self.number += 1;
                Some(Ok(true))
            }
            Cut::Long => {
                let fault = LineFault::LongLine(self.number + 1);
                self.from = self.start;
                self.to = self.start;
                self.fault = Some(fault);
                Some(Err(fault))
            }
            Cut::More => None,
        }
    }

    /// Takes the bytes that are held as the last line; false where there are none.
    #[cold]
    fn take_last(&mut self) -> bool
        requires number { line_number self.old + 1 < 2 ^ 64 }
        requires open { fault_of self.old ≡ None }
        requires short { IsCut More (held self.old) }
        ensures cuts { (left : Option (List ℕ)) → IsAtEnd left
            → Cuts (Ok result) (ahead self.old left) (ahead self.new left) (line_of self.new) }
        ensures stands { StandsCut (Ok result) (line_number self.old) self.new }
        ensures taken { result ≡ true → (left : Option (List ℕ))
            → Consumes (ahead self.old left) (ahead self.new left) (rest_of self.new) }
    {
        self.from = self.start;
        self.to = self.end;
        self.start = self.end;
        if self.from == self.to {
            return false;
        }
        self.number += 1;
        true
    }

    /// Moves to the next line; false at the end.
    #[inline(always)]
    pub fn advance<S: Source>(&mut self, source: &mut S) -> Result<bool, LineFault>
        requires { line_number self.old + 1 < 2 ^ 64 }
        ensures cuts { fault_of self.old ≡ None
            → Cuts result (ahead self.old (S.left source.old)) (ahead self.new (S.left source.new)) (line_of self.new) }
        ensures stands { fault_of self.old ≡ None → StandsCut result (line_number self.old) self.new }
        ensures taken { fault_of self.old ≡ None → result ≡ Ok true
            → Consumes (ahead self.old (S.left source.old)) (ahead self.new (S.left source.new)) (rest_of self.new) }
        ensures stuck { (f : LineFault) → fault_of self.old ≡ Some f
            → (result ≡ Err f) × (self.new ≡ self.old) × (source.new ≡ source.old) }
        ensures sure { fault_of self.old ≡ None → NeverFails (S.plan source.old)
            → (result ≢ Err ReadFault) × NeverFails (S.plan source.new) }
        ensures same { S.name source.new ≡ S.name source.old }
        ensures later { S.faults source.old ≤ S.faults source.new }
        ensures cause { fault_of self.old ≡ None → result ≡ Err ReadFault
            → Rose (S.faults source.old) (S.faults source.new) }
        ensures still { result ≢ Err ReadFault → S.faults source.new ≡ S.faults source.old }
    {
        if let Some(fault) = self.fault {
            return Err(fault);
        }
        loop {
            if let Some(answer) = self.cut_held() {
                return answer;
            }
            match self.fill(source) {
                Ok(true) => {}
                Ok(false) => return Ok(self.take_last()),
                Err(_) => {
                    self.fault = Some(LineFault::ReadFault);
                    return Err(LineFault::ReadFault);
                }
            }
        }
    }
}
