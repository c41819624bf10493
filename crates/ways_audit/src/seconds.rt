// Where the first second of some notices ends.
ghost use Rattle.std.specs.Prelude.{◌≡◌, ◌≤◌, ◌∷◌, ◌==◌, length, not, take, drop};
ghost use Rattle.std.specs.List.{position_or_len};
ghost use Rattle.ways_audit.specs.Seconds.{second_of, seconds};

use road_time::Notice;

/// The second of a notice.
pub fn second_of(notice: &Notice) -> u32
    ensures { result ≡ second_of notice.now }
{
    match *notice {
        Notice::Toll { time, .. } => time,
        Notice::Alert { time, .. } => time,
        Notice::Balance { time, .. } => time,
        Notice::Spent { time, .. } => time,
    }
}

/// How many notices are of this second before the first that is not.
fn same_second(second: u32, notices: &[Notice]) -> usize
    ensures exact { result ≡ position_or_len (λ v. not (second_of v == second)) notices.now }
    ensures few { result ≤ length notices.now }
{
    let mut same = 0;
    for notice in notices {
        if second_of(notice) != second {
            return same;
        }
        same += 1;
    }
    same
}

/// How many notices the first second has.
pub fn first_second(notices: &[Notice]) -> usize
    requires some { 1 ≤ length notices.now }
    ensures some { 1 ≤ result }
    ensures few { result ≤ length notices.now }
    ensures cut { seconds notices.now ≡ take result notices.now ∷ seconds (drop result notices.now) }
{
    match notices.split_first() {
        None => 0,
        Some((first, behind)) => 1 + same_second(second_of(first), behind),
    }
}
