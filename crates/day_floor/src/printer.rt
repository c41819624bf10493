// Notices are written in large pieces, counted, and the digest of their text is taken on the way, if it is asked.
ghost use Rattle.std.specs.Prelude.{◌≡◌, ◌+◌, ◌<◌, ◌^◌, ◌∷◌, [], ℕ, List, true, false, OnOk, is_some};
ghost use Rattle.day_floor.specs.TextDigests.{TookText, IsDigestOf};
ghost use Rattle.day_floor.specs.Printing.{Says, HandsOn};
ghost use Rattle.day_floor.specs.Faults.{SinkFaults, keeper_failed};
ghost use Rattle.day_floor.specs.Answers.{alert_to, told_notices};

use crate::due_slot::Found;
use crate::fault::SettleFault;
use crate::text_digest::TextDigest;
use road_digest::Digest;
use road_io::{Sink, put_all};
use road_time::Notice;
use std::alloc::Global;
use std::thread::Threads;
use tuples_text::put_notice;

/// A piece is handed on once it has so many bytes.
const PIECE: usize = 65_536;

/// The text that is not handed on yet, the digest of what is, if it is asked, and how many notices there were.
/// It cannot be dropped: `end` and `close` end it.
pub struct Printer {
    piece: Vec<u8>,
    digest: TextDigest,
    notices: u64,
}

impl Printer {
    /// Nothing was printed. It takes no memory.
    pub fn new(alloc: Global, digested: bool) -> Self
        ensures held { result.piece.items ≡ [] }
        ensures took { TookText result.digest [] }
        ensures digested { result.digest.asked ≡ digested }
        ensures count { result.notices ≡ 0 }
    {
        Printer {
            piece: Vec::new(alloc),
            digest: TextDigest::new(alloc, digested),
            notices: 0,
        }
    }

    /// Hands the piece on.
    pub fn flush<R: Threads, O: Sink>(&mut self, rt: &R, sink: &mut O) -> Result<(), SettleFault>
        ensures hands { HandsOn result self.old self.new (O.written sink.old, O.room sink.old)
            (O.written sink.new, O.room sink.new) }
        ensures faults { SinkFaults (O.faults sink.old) (O.faults sink.new) (O.room sink.old) (O.room sink.new) result }
        ensures other { keeper_failed result ≡ false }
        ensures digested { self.new.digest.asked ≡ self.old.digest.asked }
    {
        match put_all(sink, self.piece.as_slice()) {
            Ok(()) => {
                self.digest.add(rt, &self.piece);
                self.piece.clear();
                Ok(())
            }
            Err(_) => Err(SettleFault::WriteFault),
        }
    }

    /// Takes a notice.
    #[inline(always)]
    pub fn put<R: Threads, O: Sink>(
        &mut self,
        rt: &R,
        notice: &Notice,
        sink: &mut O,
    ) -> Result<(), SettleFault>
        requires { self.old.notices + 1 < 2 ^ 64 }
        ensures says { Says result self.old self.new (O.written sink.old, O.room sink.old)
            (O.written sink.new, O.room sink.new) (notice.now ∷ []) }
        ensures faults { SinkFaults (O.faults sink.old) (O.faults sink.new) (O.room sink.old) (O.room sink.new) result }
        ensures other { keeper_failed result ≡ false }
        ensures digested { self.new.digest.asked ≡ self.old.digest.asked }
    {
        if put_notice(&mut self.piece, notice).is_err() {
            return Err(SettleFault::NoMemory);
        }
        self.notices += 1;
        if self.piece.len() < PIECE {
            return Ok(());
        }
        self.flush(rt, sink)
    }

    /// Takes an alert, where there is an accident.
    #[inline(always)]
    fn put_alert<R: Threads, O: Sink>(
        &mut self,
        rt: &R,
        time: u32,
        vid: u32,
        alert: Option<u8>,
        sink: &mut O,
    ) -> Result<(), SettleFault>
        requires { self.old.notices + 1 < 2 ^ 64 }
        ensures says { Says result self.old self.new (O.written sink.old, O.room sink.old)
            (O.written sink.new, O.room sink.new) (alert_to time vid alert) }
        ensures faults { SinkFaults (O.faults sink.old) (O.faults sink.new) (O.room sink.old) (O.room sink.new) result }
        ensures other { keeper_failed result ≡ false }
        ensures digested { self.new.digest.asked ≡ self.old.digest.asked }
    {
        match alert {
            Some(seg) => self.put(rt, &Notice::Alert { time, vid, seg }, sink),
            None => Ok(()),
        }
    }

    /// Takes what a report is told: the alert before the toll.
    pub fn put_told<R: Threads, O: Sink>(
        &mut self,
        rt: &R,
        time: u32,
        vid: u32,
        found: Found,
        sink: &mut O,
    ) -> Result<(), SettleFault>
        requires { self.old.notices + 2 < 2 ^ 64 }
        ensures says { Says result self.old self.new (O.written sink.old, O.room sink.old)
            (O.written sink.new, O.room sink.new) (told_notices true time vid found) }
        ensures faults { SinkFaults (O.faults sink.old) (O.faults sink.new) (O.room sink.old) (O.room sink.new) result }
        ensures other { keeper_failed result ≡ false }
        ensures digested { self.new.digest.asked ≡ self.old.digest.asked }
    {
        if let Err(fault) = self.put_alert(rt, time, vid, found.alert, sink) {
            return Err(fault);
        }
        let toll = Notice::Toll {
            vid,
            time,
            lav: found.lav,
            toll: found.toll,
        };
        self.put(rt, &toll, sink)
    }

    /// How many notices were taken, and the digest of the text that was handed on, if it was asked.
    pub fn end<R: Threads>(self, rt: &R) -> (u64, Option<Digest>)
        ensures count { result.0 ≡ self.notices }
        ensures digest { (text : List ℕ) → TookText self.digest text → IsDigestOf result.1 text }
        ensures digested { is_some result.1 ≡ self.digest.asked }
    {
        let Printer {
            piece: _,
            digest,
            notices,
        } = self;
        (notices, digest.finish(rt))
    }

    /// Leaves what was taken, once no thread has a part of it.
    pub fn close<R: Threads>(self, rt: &R) {
        let Printer {
            piece: _,
            digest,
            notices: _,
        } = self;
        digest.close(rt);
    }
}
