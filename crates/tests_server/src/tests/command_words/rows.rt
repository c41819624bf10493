// Words, and the commands that they are.
use day_plan::Plan;
use office_words::{Command, Comparison, DayRun, Recomputing, Size, WordFault};

/// A day's work by so many workers, in turns or none, where so many tuples may wait.
macro_rules! waiting {
    ($day:expr, $late:expr, $width:expr, $turns:expr, $backlog:expr) => {
        DayRun {
            day: $day,
            late: $late,
            plan: Plan {
                width: $width,
                turns: $turns,
            },
            backlog: $backlog,
        }
    };
}

/// The same, where as many may wait as ever.
macro_rules! run {
    ($day:expr, $late:expr, $width:expr, $turns:expr) => {
        waiting!($day, $late, $width, $turns, 65_536)
    };
}

/// The comparison of a day that tells so many differences, in any order within a second or not.
macro_rules! ordered {
    ($day:expr, $late:expr, $how:expr, $show:expr, $any_order:expr) => {
        Command::Compare(Comparison {
            day: $day,
            late: $late,
            how: $how,
            show: $show,
            any_order: $any_order,
        })
    };
}

/// The same, in its order.
macro_rules! listed {
    ($day:expr, $late:expr, $how:expr, $show:expr) => {
        ordered!($day, $late, $how, $show, false)
    };
}

/// The same, where one is told.
macro_rules! compared {
    ($day:expr, $late:expr, $how:expr) => {
        listed!($day, $late, $how, 1)
    };
}

/// Words, and what they mean.
pub type Row = (&'static [&'static str], Result<Command, WordFault>);

/// Words of the commands on a day that is not kept.
pub const COMMANDS: [Row; 11] = [
    (
        &["answers", "100"],
        Ok(Command::Answers(run!(100, 0, 1, None))),
    ),
    (
        &["answers", "0000100"],
        Ok(Command::Answers(run!(100, 0, 1, None))),
    ),
    (
        &["answers", "--", "100"],
        Ok(Command::Answers(run!(100, 0, 1, None))),
    ),
    (
        &["answers", "--late=5", "100"],
        Ok(Command::Answers(run!(100, 5, 1, None))),
    ),
    (
        &["answers", "--late", "5", "100"],
        Ok(Command::Answers(run!(100, 5, 1, None))),
    ),
    (
        &["answers", "--late=5", "--", "100"],
        Ok(Command::Answers(run!(100, 5, 1, None))),
    ),
    (
        &["validate", "100"],
        Ok(compared!(100, 0, Recomputing::Plainly)),
    ),
    (&["accidents"], Ok(Command::Accidents { late: 0 })),
    (
        &["accidents", "--late", "120"],
        Ok(Command::Accidents { late: 120 }),
    ),
    (
        &["check", "1000000"],
        Ok(Command::Check {
            day: 1_000_000,
            late: 0,
        }),
    ),
    (
        &["check", "--late=120", "--", "70"],
        Ok(Command::Check { day: 70, late: 120 }),
    ),
];

/// And such of no stated form.
pub const NO_COMMANDS: [&[&str]; 20] = [
    &["check"],
    &["check", "69"],
    &["check", "100", "101"],
    &["check", "100", "--late", "121"],
    &["check", "100", "--workers", "2"],
    &["answers", "100", "--late", "121"],
    &["answers", "100", "--late="],
    &["answers", "100", "--late", "1", "--late", "1"],
    &["accidents", "100"],
    &[],
    &["answers"],
    &["answers", "69"],
    &["answers", "1000001"],
    &["answers", "+100"],
    &["answers", "-"],
    &["answers", "--", "-5"],
    &["answers", "100", "100"],
    &["answers", "000000000000000000100"],
    &["answers", "--help"],
    &["help"],
];

/// Words of the commands on kept state.
pub const ON_KEPT_STATE: [Row; 11] = [
    (
        &["import", "100"],
        Ok(Command::Import(run!(100, 0, 1, None))),
    ),
    (
        &["import", "--late", "30", "100"],
        Ok(Command::Import(run!(100, 30, 1, None))),
    ),
    (&["past", "100"], Ok(Command::Past { base: 100 })),
    (&["past", "1000000"], Ok(Command::Past { base: 1_000_000 })),
    (&["day", "100"], Ok(Command::Day { day: 100 })),
    (
        &["export", "1000000"],
        Ok(Command::Export { day: 1_000_000 }),
    ),
    (
        &["vehicle", "1", "30", "30"],
        Ok(Command::Vehicle {
            vid: 1,
            from: 30,
            to: 30,
        }),
    ),
    (
        &["tariff", "255", "500000", "100", "20"],
        Ok(Command::Tariff {
            xway: 255,
            crowd: 500_000,
            speed: 100,
            factor: 20,
        }),
    ),
    (&["tariffs"], Ok(Command::Tariffs)),
    (&["days"], Ok(Command::Days)),
    (
        &["charges", "--", "1", "1000000"],
        Ok(Command::Charges {
            from: 1,
            to: 1_000_000,
        }),
    ),
];

/// And such of no stated form.
pub const NOT_ON_KEPT_STATE: [&[&str]; 21] = [
    &["import"],
    &["past"],
    &["past", "69"],
    &["past", "100", "--late", "0"],
    &["day", "100", "--late", "0"],
    &["export"],
    &["vehicle", "1", "31", "30"],
    &["vehicle", "1", "0", "30"],
    &["vehicle", "2147483648", "1", "2"],
    &["vehicle", "1", "2"],
    &["tariff", "0", "50", "101", "2"],
    &["tariff", "256", "50", "40", "2"],
    &["tariff", "0", "500001", "40", "2"],
    &["tariff", "0", "50", "40", "21"],
    &["tariffs", "0"],
    &["days", "100"],
    &["charges"],
    &["charges", "100"],
    &["charges", "0", "100"],
    &["charges", "101", "100"],
    &["charges", "100", "1000001"],
];

/// Words of the commands on made traffic.
pub const ON_TRAFFIC: [Row; 4] = [
    (
        &["generate", "1"],
        Ok(Command::Generate {
            seed: 1,
            size: Size {
                vehicles: 1000,
                minutes: 60,
                xways: 1,
                crashes: 0,
            },
        }),
    ),
    (
        &[
            "rehearse",
            "--crashes=100",
            "--vehicles=5000",
            "18446744073709551615",
            "--minutes",
            "1440",
            "--xways=256",
            "--late",
            "120",
            "--turns=7",
            "--workers",
            "64",
        ],
        Ok(Command::Rehearse {
            seed: 18_446_744_073_709_551_615,
            size: Size {
                vehicles: 5000,
                minutes: 1440,
                xways: 256,
                crashes: 100,
            },
            run: run!(100, 120, 64, Some(7)),
        }),
    ),
    (
        &["rehearse", "1"],
        Ok(Command::Rehearse {
            seed: 1,
            size: Size {
                vehicles: 1000,
                minutes: 60,
                xways: 1,
                crashes: 0,
            },
            run: run!(100, 0, 1, None),
        }),
    ),
    (
        &["rehearse", "--backlog", "7", "1"],
        Ok(Command::Rehearse {
            seed: 1,
            size: Size {
                vehicles: 1000,
                minutes: 60,
                xways: 1,
                crashes: 0,
            },
            run: waiting!(100, 0, 1, None, 7),
        }),
    ),
];

/// And such of no stated form.
pub const NOT_ON_TRAFFIC: [&[&str]; 12] = [
    &["generate"],
    &["generate", "18446744073709551616"],
    &["generate", "1", "--vehicles", "5001"],
    &["generate", "1", "--vehicles", "3", "--crashes", "2"],
    &["generate", "1", "--minutes", "0"],
    &["generate", "1", "--xways", "257"],
    &["generate", "1", "--late", "0"],
    &["generate", "1", "-x"],
    &["rehearse", "1", "--late", "121"],
    &["rehearse", "1", "--workers", "65"],
    &["generate", "1", "--workers", "2"],
    &["generate", "1", "--turns", "2"],
];

/// Words by how many workers, and in which turns.
pub const ON_WORKERS: [Row; 11] = [
    (
        &["answers", "100", "--workers", "3"],
        Ok(Command::Answers(run!(100, 0, 3, None))),
    ),
    (
        &["answers", "--workers", "3", "100"],
        Ok(Command::Answers(run!(100, 0, 3, None))),
    ),
    (
        &["answers", "--workers=3", "100"],
        Ok(Command::Answers(run!(100, 0, 3, None))),
    ),
    (
        &["import", "100", "--workers", "1"],
        Ok(Command::Import(run!(100, 0, 1, None))),
    ),
    (
        &["import", "100", "--workers=64"],
        Ok(Command::Import(run!(100, 0, 64, None))),
    ),
    (
        &["import", "--turns", "0", "100"],
        Ok(Command::Import(run!(100, 0, 1, Some(0)))),
    ),
    (
        &["answers", "100", "--turns=18446744073709551615"],
        Ok(Command::Answers(run!(100, 0, 1, Some(18_446_744_073_709_551_615)))),
    ),
    (
        &["import", "--turns", "5", "100", "--late=9", "--workers=3"],
        Ok(Command::Import(run!(100, 9, 3, Some(5)))),
    ),
    (
        &["answers", "100", "--backlog", "1"],
        Ok(Command::Answers(waiting!(100, 0, 1, None, 1))),
    ),
    (
        &["import", "--backlog=65536", "100", "--workers=2"],
        Ok(Command::Import(waiting!(100, 0, 2, None, 65_536))),
    ),
    (
        &["answers", "100", "--backlog=00100", "--turns", "1"],
        Ok(Command::Answers(waiting!(100, 0, 1, Some(1), 100))),
    ),
];

/// And such of no stated form.
pub const NOT_ON_WORKERS: [&[&str]; 21] = [
    &["import", "100", "--workers", "0"],
    &["import", "100", "--workers", "65"],
    &["import", "100", "--workers", "2", "--workers", "2"],
    &["import", "100", "--workers=2", "--workers=3"],
    &["import", "100", "--workers"],
    &["import", "100", "--worker", "2"],
    &["import", "100", "--workers", "--turns", "2"],
    &["answers", "100", "--turns", "18446744073709551616"],
    &["answers", "100", "--turns", "+1"],
    &["answers", "100", "--turns="],
    &["answers", "100", "--turns", "1", "--turns", "1"],
    &["validate", "100", "--workers", "1"],
    &["validate", "100", "--turns", "1"],
    &["accidents", "--workers", "1"],
    &["past", "100", "--workers", "1"],
    &["answers", "100", "--backlog", "0"],
    &["answers", "100", "--backlog", "65537"],
    &["import", "100", "--backlog"],
    &["import", "100", "--backlog=2", "--backlog=2"],
    &["validate", "100", "--backlog", "1"],
    &["audit", "100", "--backlog", "1"],
];

/// Words of a day that is recomputed.
pub const ON_AUDITS: [Row; 6] = [
    (
        &["audit", "100"],
        Ok(compared!(
            100,
            0,
            Recomputing::InBulk {
                shards: 1,
                width: 1,
            }
        )),
    ),
    (
        &[
            "audit",
            "--workers",
            "3",
            "100",
            "--shards=2",
            "--late",
            "5",
        ],
        Ok(compared!(
            100,
            5,
            Recomputing::InBulk {
                shards: 2,
                width: 3,
            }
        )),
    ),
    (
        &["audit", "100", "--show", "10"],
        Ok(listed!(
            100,
            0,
            Recomputing::InBulk {
                shards: 1,
                width: 1,
            },
            10
        )),
    ),
    (
        &["audit", "--show=1000", "100", "--shards", "64"],
        Ok(listed!(
            100,
            0,
            Recomputing::InBulk {
                shards: 64,
                width: 1,
            },
            1000
        )),
    ),
    (
        &["audit", "100", "--any-order"],
        Ok(ordered!(
            100,
            0,
            Recomputing::InBulk {
                shards: 1,
                width: 1,
            },
            1,
            true
        )),
    ),
    (
        &["audit", "--any-order", "--late=5", "100", "--show", "10"],
        Ok(ordered!(
            100,
            5,
            Recomputing::InBulk {
                shards: 1,
                width: 1,
            },
            10,
            true
        )),
    ),
];

/// And such of no stated form.
pub const NOT_ON_AUDITS: [&[&str]; 21] = [
    &["audit"],
    &["audit", "69"],
    &["audit", "100", "--shards", "0"],
    &["audit", "100", "--shards", "65"],
    &["audit", "100", "--workers", "65"],
    &["audit", "100", "--turns", "1"],
    &["validate", "100", "--shards", "1"],
    &["import", "100", "--shards", "1"],
    &["audit", "100", "--show", "0"],
    &["audit", "100", "--show", "1001"],
    &["audit", "100", "--show"],
    &["audit", "100", "--show", "2", "--show", "2"],
    &["validate", "100", "--show", "2"],
    &["check", "100", "--show", "2"],
    &["audit", "100", "--any-order", "--any-order"],
    &["audit", "100", "--any-order=true"],
    &["audit", "100", "--any-order", "true"],
    &["audit", "100", "--late", "--any-order"],
    &["audit", "--any-order"],
    &["validate", "100", "--any-order"],
    &["import", "100", "--any-order"],
];
