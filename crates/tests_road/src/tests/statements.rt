// The statements and the export of what a keeper in memory has, by hand.
use super::records::{amount, day_of, past_of};
use keep_office::{Keeper, MemKeeper};
use office_reports::{ReportFault, day_statement, export_csv, vehicle_statement};
use road_digest::Digester;
use road_io::MemSink;
use std::alloc::Global;

/// What is written: the statement of a day, its export, or the statement of a vehicle over days.
#[derive(Clone, Copy)]
enum Paper {
    Day(u32),
    Export(u32),
    Vehicle(u32, u32, u32),
}

/// Writes it. All calls of the three over a keeper in memory go through here.
fn write(
    alloc: Global,
    paper: Paper,
    keeper: &mut MemKeeper,
    sink: &mut MemSink,
) -> Result<(), ReportFault> {
    match paper {
        Paper::Day(day) => day_statement(alloc, day, keeper, sink),
        Paper::Export(day) => export_csv(alloc, day, keeper, sink),
        Paper::Vehicle(vid, from, to) => vehicle_statement(alloc, vid, from, to, keeper, sink),
    }
}

/// Whether it ends so and is written as this text, where a sink takes so many bytes at a time.
fn is_written(
    alloc: Global,
    paper: Paper,
    keeper: &mut MemKeeper,
    piece: usize,
    end: Result<(), ReportFault>,
    text: &[u8],
) -> bool {
    match MemSink::new(alloc, 400, piece.max(1)) {
        Ok(mut sink) => write(alloc, paper, keeper, &mut sink) == end && sink.bytes() == text,
        Err(_) => false,
    }
}

/// Whether nothing is written of a day that is not kept.
fn is_refused(alloc: Global, paper: Paper, keeper: &mut MemKeeper) -> bool {
    is_written(alloc, paper, keeper, 7, Err(ReportFault::NoDay), b"")
}

/// The statement and the export of a day that is not kept, and the statement of a vehicle without amounts.
fn nothing_kept(alloc: Global) -> bool {
    let Ok(mut keeper) = MemKeeper::new(alloc, &[]) else {
        return false;
    };
    let text = b"vehicle 7 days 31 to 99\ntotal                          0\n";
    is_refused(alloc, Paper::Day(100), &mut keeper)
        && is_refused(alloc, Paper::Export(100), &mut keeper)
        && is_written(
            alloc,
            Paper::Vehicle(7, 31, 99),
            &mut keeper,
            7,
            Ok(()),
            text,
        )
}

/// The statement of an empty day.
fn empty_day(alloc: Global) -> bool {
    let Ok(mut keeper) = MemKeeper::new(alloc, &[]) else {
        return false;
    };
    let text =
        b"day 100\ndigest e3b0c44298fc1c149afbf4c8996fb92427ae41e4649b934ca495991b7852b855\nbytes 0\ntuples 0\n\
            notices 0\nnotices-digest e3b0c44298fc1c149afbf4c8996fb92427ae41e4649b934ca495991b7852b855\n\
            tariffs e3b0c44298fc1c149afbf4c8996fb92427ae41e4649b934ca495991b7852b855\ntotal 0\n";
    keeper.put_day(&day_of(Digester::new().finish(), 0), &[]) == Ok(())
        && is_written(alloc, Paper::Day(100), &mut keeper, 65536, Ok(()), text)
}

/// Whether the statement of day 100 ends so.
fn ends_with(alloc: Global, keeper: &mut MemKeeper, end: &[u8]) -> bool {
    match MemSink::new(alloc, 400, 7) {
        Ok(mut sink) => {
            write(alloc, Paper::Day(100), keeper, &mut sink) == Ok(())
                && sink.bytes().ends_with(end)
        }
        Err(_) => false,
    }
}

/// The last line of a day's statement, and its export, where one vehicle was charged.
fn charged_day(alloc: Global) -> bool {
    let Ok(mut keeper) = MemKeeper::new(alloc, &[]) else {
        return false;
    };
    let lines = b"vid,day,xway,tolls\n100,100,0,2\n";
    keeper.put_day(&day_of(Digester::new().finish(), 2), &[amount(100, 100, 2)]) == Ok(())
        && ends_with(
            alloc,
            &mut keeper,
            b"total 2\nxway   0                    2\n",
        )
        && is_written(alloc, Paper::Export(100), &mut keeper, 7, Ok(()), lines)
}

/// The statement of a vehicle after a history, and of a day before that, which is not kept.
fn history(alloc: Global) -> bool {
    let Ok(mut keeper) = MemKeeper::new(alloc, &[]) else {
        return false;
    };
    let past = past_of(Digester::new().finish());
    let text =
        b"vehicle 7 days 31 to 99\n     31   0                   28\n     99   0                    5\n\
            total                         33\n";
    keeper.put_past(&past, &[amount(31, 7, 28), amount(99, 7, 5)]) == Ok(())
        && is_written(
            alloc,
            Paper::Vehicle(7, 31, 99),
            &mut keeper,
            7,
            Ok(()),
            text,
        )
        && is_refused(alloc, Paper::Day(99), &mut keeper)
}

#[test]
fn kept_days_are_stated(rt: HostRuntime) {
    let alloc = rt.alloc();
    let rows = [
        nothing_kept(alloc),
        empty_day(alloc),
        charged_day(alloc),
        history(alloc),
    ];
    assert_eq!(rt; rows, [true; 4]);
}
