// The numbers of a notice, by which it is told from others.
ghost use Rattle.std.specs.Prelude.{◌≡◌};
ghost use Rattle.ways_audit.specs.Seconds.{numbers_of};

use road_time::Notice;

/// The numbers of a notice: its kind, 0 to 3, its second, the number of its vehicle or request, and what it says.
#[derive(Clone, Copy, Debug, PartialEq, Eq, Hash)]
pub struct Numbers {
    pub kind: u8,
    pub time: u32,
    pub name: u32,
    pub lav: i16,
    pub seg: u8,
    pub amount: u64,
}

/// The numbers of a notice.
pub fn numbers_of(notice: &Notice) -> Numbers
    ensures { result ≡ numbers_of notice.now }
{
    let nothing = Numbers {
        kind: 0,
        time: 0,
        name: 0,
        lav: 0,
        seg: 0,
        amount: 0,
    };
    match *notice {
        Notice::Toll {
            vid,
            time,
            lav,
            toll,
        } => Numbers {
            kind: 0,
            time,
            name: vid,
            lav,
            amount: toll,
            ..nothing
        },
        Notice::Alert { time, vid, seg } => Numbers {
            kind: 1,
            time,
            name: vid,
            seg,
            ..nothing
        },
        Notice::Balance { time, qid, amount } => Numbers {
            kind: 2,
            time,
            name: qid,
            amount,
            ..nothing
        },
        Notice::Spent { time, qid, amount } => Numbers {
            kind: 3,
            time,
            name: qid,
            amount,
            ..nothing
        },
    }
}
