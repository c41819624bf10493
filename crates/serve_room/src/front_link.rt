// A link behind bytes that came before.
ghost use Rattle.std.specs.Prelude.{◌≡◌, ◌≤◌, ◌<◌, ◌++◌, None, IfOk, drop, length, take};
ghost use Rattle.std.specs.Io.{ReadsAtMost};
ghost use Rattle.std.specs.Io.KnownBytes.{ReadConsumes, WriteAppends};
ghost use Rattle.road_io.specs.Faults.{HasCause};
ghost use Rattle.road_io.specs.Portions.{AnyPart};
ghost use Rattle.road_io.specs.Within.{ReadsWithin};
ghost use Rattle.serve_room.specs.Fronts.{left_behind};

use road_io::{Failed, Link};

/// Bytes that came before, and then those of a link: the first are read first. It counts the calls of its link that
/// failed. `keep` is kept for as long. It cannot be let go but by being taken apart.
pub struct FrontLink<L, K> {
    pub(crate) front: Vec<u8>,
    pub(crate) at: usize,
    pub(crate) link: L,
    pub(crate) keep: K,
    pub(crate) faults: u64,
}

impl<L, K> FrontLink<L, K> {
    /// Nothing of the front was read.
    pub fn over(front: Vec<u8>, link: L, keep: K) -> FrontLink<L, K>
        ensures front { result.front ≡ front }
        ensures at { result.at ≡ 0 }
        ensures link { result.link ≡ link }
        ensures keep { result.keep ≡ keep }
    {
        FrontLink {
            front,
            at: 0,
            link,
            keep,
            faults: 0,
        }
    }

    /// The link and what was kept. What is left of the front is let go.
    pub fn into_parts(self) -> (L, K)
        ensures link { result.0 ≡ self.link }
        ensures keep { result.1 ≡ self.keep }
    {
        let FrontLink {
            front: _,
            at: _,
            link,
            keep,
            faults: _,
        } = self;
        (link, keep)
    }
}

/// Moves the first bytes behind a place to a buffer, and answers their number.
fn give(front: &[u8], at: &mut usize, buf: &mut [u8]) -> usize
    requires left { at.old < length front.now }
    requires room { 0 < length buf.old }
    ensures some { 0 < result }
    ensures bound { result ≤ length buf.new }
    ensures bytes { drop at.old front.now ≡ take result buf.new ++ drop at.new front.now }
{
    let count = (front.len() - *at).min(buf.len());
    buf[..count].copy_from_slice(&front[*at..*at + count]);
    *at += count;
    count
}

/// Reads what is left of a front, and behind it the link.
#[tactic(auto, using(crate::proofs::FrontLaws::given, crate::proofs::FrontLaws::behind))]
fn read_behind<L: Link>(
    front: &[u8],
    at: &mut usize,
    link: &mut L,
    faults: &mut u64,
    buf: &mut [u8],
) -> Result<usize, Failed>
    requires { 0 < length buf.old }
    ensures bound { ReadsAtMost result buf.new }
    ensures bytes { ReadConsumes (left_behind front.now at.old (L.left link.old))
        (left_behind front.now at.new (L.left link.new)) result buf.new }
    ensures unwritten { L.written link.new ≡ L.written link.old }
    ensures room_kept { L.room link.new ≡ L.room link.old }
    ensures cause { HasCause faults.old faults.new result }
{
    if *at < front.len() {
        return Ok(give(front, at, buf));
    }
    match link.read(buf) {
        Ok(count) => Ok(count),
        Err(unread) => {
            *faults = faults.saturating_add(1);
            Err(unread)
        }
    }
}

/// Finishes a link, where nothing is left of the front.
fn finish_behind<L: Link>(front: &[u8], at: usize, link: &mut L)
    ensures dropped { ReadsWithin 1048576 (left_behind front.now at (L.left link.old))
        (left_behind front.now at (L.left link.new)) }
    ensures unwritten { L.written link.new ≡ L.written link.old }
    ensures room_kept { L.room link.new ≡ L.room link.old }
{
    if at < front.len() {
        return;
    }
    link.finish();
}

impl<L: Link, K> Link for FrontLink<L, K> {
    ghost left = { λ l. left_behind l.front.items l.at (L.left l.link) };

    ghost plan = { λ l. None };

    ghost written = { λ l. L.written l.link };

    ghost room = { λ l. L.room l.link };

    ghost faults = { λ l. l.faults };

    ghost most = { λ l. AnyPart };

    fn read(&mut self, buf: &mut [u8]) -> Result<usize, Failed> {
        read_behind(
            self.front.as_slice(),
            &mut self.at,
            &mut self.link,
            &mut self.faults,
            buf,
        )
    }

    fn write(&mut self, piece: &[u8]) -> Result<usize, Failed> {
        match self.link.write(piece) {
            Ok(count) => Ok(count),
            Err(unsent) => {
                self.faults = self.faults.saturating_add(1);
                Err(unsent)
            }
        }
    }

    fn finish(&mut self) {
        finish_behind(self.front.as_slice(), self.at, &mut self.link);
    }
}
