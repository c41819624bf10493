// Known draws, and files as they were worked out apart.
use day_plan::{draw, seed};
use rand_core::utils::NextWord;
use road_io::MemSink;
use std::alloc::Global;
use tuples_traffic::{GenFault, GenPlan, generate};

/// Whether a seed's first words are these.
fn are_drawn(number: u64, words: [u32; 3]) -> bool {
    let mut rng = seed(number);
    let drawn = [rng.next_word(), rng.next_word(), rng.next_word()];
    drawn == words
}

#[test]
fn known_draws(rt: HostRuntime) {
    let zero = are_drawn(0, [298703107, 4236525527, 336081875]);
    let one = are_drawn(1, [866585574, 2109535214, 3403630417]);
    assert!(rt; zero && one && draw(&mut seed(1), 1000) == 574);
}

/// A number that other bytes hardly share: FNV-1a.
fn mark_of(text: &[u8]) -> u64 {
    let mut mark: u64 = 0xcbf2_9ce4_8422_2325;
    for byte in text {
        mark = (mark ^ u64::from(*byte)).wrapping_mul(0x100_0000_01b3);
    }
    mark
}

/// The file of seed 1, three vehicles, a minute, an expressway and a crash.
const SMALL: &[u8] =
    b"0,7,1,0,0,2,0,44,234960,-1,-1,-1,-1,-1,-1\n0,8,2,0,0,2,0,44,234960,-1,-1,-1,-1,-1,-1\n\
        0,37,1,0,0,2,0,44,234960,-1,-1,-1,-1,-1,-1\n0,38,2,0,0,2,0,44,234960,-1,-1,-1,-1,-1,-1\n\
        0,52,3,36,0,0,1,40,211300,-1,-1,-1,-1,-1,-1\n";

/// A seed, sizes (vehicles, minutes, expressways and crashes), the room of a sink, the answer, and how many bytes of
/// which mark are written.
type Row = (
    u64,
    (u32, u32, u16, u32),
    usize,
    Result<u64, GenFault>,
    usize,
    u64,
);

const ROWS: [Row; 15] = [
    (
        1,
        (20, 10, 2, 1),
        10897,
        Ok(240),
        10897,
        14529410396433463708,
    ),
    (
        18446744073709551615,
        (100, 60, 4, 3),
        88063,
        Ok(1887),
        88063,
        5157999491320497015,
    ),
    (
        4294967297,
        (4, 5, 256, 1),
        1096,
        Ok(24),
        1096,
        1640575695170238095,
    ),
    (
        363,
        (50, 5, 4, 24),
        15539,
        Ok(347),
        15539,
        2864775930805478554,
    ),
    (
        2,
        (5000, 1440, 256, 100),
        5042321,
        Ok(98451),
        5042321,
        1558717486030553864,
    ),
    (
        1,
        (20, 10, 2, 1),
        10896,
        Err(GenFault::WriteFault),
        10896,
        7586862857415883262,
    ),
    (
        1,
        (20, 10, 2, 1),
        0,
        Err(GenFault::WriteFault),
        0,
        14695981039346656037,
    ),
    (
        1,
        (5001, 60, 1, 0),
        1000,
        Err(GenFault::Size(2)),
        0,
        14695981039346656037,
    ),
    (
        1,
        (0, 0, 0, 101),
        1000,
        Err(GenFault::Size(2)),
        0,
        14695981039346656037,
    ),
    (
        1,
        (1000, 1441, 257, 0),
        1000,
        Err(GenFault::Size(3)),
        0,
        14695981039346656037,
    ),
    (
        1,
        (1000, 0, 1, 0),
        1000,
        Err(GenFault::Size(3)),
        0,
        14695981039346656037,
    ),
    (
        1,
        (1000, 60, 257, 101),
        1000,
        Err(GenFault::Size(4)),
        0,
        14695981039346656037,
    ),
    (
        1,
        (1000, 60, 0, 0),
        1000,
        Err(GenFault::Size(4)),
        0,
        14695981039346656037,
    ),
    (
        1,
        (3, 60, 1, 2),
        1000,
        Err(GenFault::Size(5)),
        0,
        14695981039346656037,
    ),
    (
        1,
        (5000, 60, 1, 101),
        1000,
        Err(GenFault::Size(5)),
        0,
        14695981039346656037,
    ),
];

/// Whether a file of this plan is made so.
fn is_made(alloc: Global, row: &Row) -> bool {
    let (seed, sizes, room, answer, bytes, mark) = *row;
    let plan = GenPlan {
        seed,
        vehicles: sizes.0,
        minutes: sizes.1,
        xways: sizes.2,
        crashes: sizes.3,
    };
    let Ok(mut sink) = MemSink::new(alloc, room, 4096) else {
        return false;
    };
    let made = generate(alloc, &plan, &mut sink);
    made == answer && (sink.bytes().len(), mark_of(sink.bytes())) == (bytes, mark)
}

/// The number of the first plan whose file is not made so, their count where all are.
fn first_wrong(alloc: Global, rows: &[Row]) -> usize {
    for (at, row) in rows.iter().enumerate() {
        if !is_made(alloc, row) {
            return at;
        }
    }
    rows.len()
}

#[test]
fn plans(rt: HostRuntime) {
    let small = (1, (3, 1, 1, 1), 1000, Ok(5), 214, mark_of(SMALL));
    assert!(rt; is_made(rt.alloc(), &small));
    assert_eq!(rt; first_wrong(rt.alloc(), &ROWS), 15);
}
