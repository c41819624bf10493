// A body that nobody uses.
ghost use Rattle.std.specs.Prelude.{◌≡◌, ◌≢◌, ◌≤◌, ℕ, List, Some, length};
ghost use Rattle.std.specs.Io.KnownBytes.{prepend_known};
ghost use Rattle.road_io.specs.Plans.{NeverFails};
ghost use Rattle.serve_requests.specs.AskedBodies.{LeavesBody, HasEndCause};
ghost use Rattle.serve_requests.specs.declared.body_end.BodyEnd.TheVariants.{LinkFault};

use crate::body::{Body, Start, drain};
use crate::body_end::BodyEnd;
use road_io::Link;
use std::marker::{Brand, PhantomData};

/// Reads a body that begins here to its declared end.
fn skip_from<L: Link, N: Start>(link: &mut L, early: &[u8], count: u64) -> BodyEnd
    requires few { length early.now ≤ count }
    requires total { count ≡ N.total }
    requires bytes { prepend_known early.now (L.left link.old) ≡ N.bytes }
    requires written { L.written link.old ≡ N.written }
    requires room { L.room link.old ≡ N.room }
    requires plan { L.plan link.old ≡ N.plan }
    requires faults { L.faults link.old ≡ N.faults }
    ensures leaves { (all : List ℕ) → N.bytes ≡ Some all → LeavesBody count all (L.left link.new) result }
    ensures unwritten { L.written link.new ≡ N.written }
    ensures room_kept { L.room link.new ≡ N.room }
    ensures cause { HasEndCause N.plan N.faults (L.faults link.new) result }
    ensures later { N.faults ≤ L.faults link.new }
{
    let mut body: Body<'_, '_, L, N> = Body {
        link,
        early,
        left: count,
        faults: 0,
        cut: false,
        of: PhantomData,
    };
    drain(&mut body)
}

/// Reads the body of a request to its declared end, of which some bytes came with its head.
pub fn skip_body<L: Link>(link: &mut L, early: &[u8], count: u64) -> BodyEnd
    requires few { length early.now ≤ count }
    ensures leaves { (all : List ℕ) → prepend_known early.now (L.left link.old) ≡ Some all
        → LeavesBody count all (L.left link.new) result }
    ensures unwritten { L.written link.new ≡ L.written link.old }
    ensures room_kept { L.room link.new ≡ L.room link.old }
    ensures cause { HasEndCause (L.plan link.old) (L.faults link.old) (L.faults link.new) result }
    ensures later { L.faults link.old ≤ L.faults link.new }
    ensures sure { NeverFails (L.plan link.old) → result ≢ LinkFault }
{
    skip_from::<L, Brand>(link, early, count)
}
