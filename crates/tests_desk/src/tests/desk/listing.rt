// All kept days, the statements of vehicles, and the page.
use super::rows::Row;
use super::{Asking, answer_of, ask, asked_of_a_new_desk, charged_on, desk_of, end_desk, post_of};
use keep_office::MemKeeper;
use road_time::NoMemory;
use serve_board::{Board, board};
use serve_requests::SessionEnd;
use std::alloc::Global;
use std::sync::Wait;
use std::thread::Threads;

const LEAVING_FIVE: &[u8] =
    b"0,60,177,30,5,1,0,10,52800,-1,-1,-1,-1,-1,-1\n0,90,177,30,5,1,0,11,58080,-1,-1,-1,-1,-1,-1\n\
        0,120,177,30,5,4,0,11,60000,-1,-1,-1,-1,-1,-1\n0,150,177,30,1,0,0,5,26400,-1,-1,-1,-1,-1,-1\n\
        2,160,177,-1,-1,-1,-1,-1,-1,9,-1,-1,-1,-1,-1\n";

/// A POST of day 104, on which vehicle 177 is charged on expressway 5.
pub fn charged_on_five(alloc: Global) -> Result<Vec<u8>, NoMemory> {
    charged_on(alloc, 104, 5, LEAVING_FIVE)
}

/// Days without tuples, posted and listed.
pub const LISTED: [Row; 9] = [
    Row {
        request: b"GET /days HTTP/1.1\r\n\r\n",
        end: SessionEnd::Answered(200),
        status: "200 OK",
        body: "[]",
    },
    Row {
        request: b"POST /days/100 HTTP/1.1\r\nContent-Length: 0\r\n\r\n",
        end: SessionEnd::Answered(200),
        status: "200 OK",
        body: "{\"bytes\":0,\"day\":100,\
            \"digest\":\"e3b0c44298fc1c149afbf4c8996fb92427ae41e4649b934ca495991b7852b855\",\"notices\":0,\
            \"notices_digest\":\"e3b0c44298fc1c149afbf4c8996fb92427ae41e4649b934ca495991b7852b855\",\"outcome\":\"stored\",\
            \"tariffs\":\"e3b0c44298fc1c149afbf4c8996fb92427ae41e4649b934ca495991b7852b855\",\"total\":0,\"tuples\":0}",
    },
    Row {
        request: b"GET /days HTTP/1.1\r\n\r\n",
        end: SessionEnd::Answered(200),
        status: "200 OK",
        body: "[{\"bytes\":0,\"day\":100,\
            \"digest\":\"e3b0c44298fc1c149afbf4c8996fb92427ae41e4649b934ca495991b7852b855\",\"notices\":0,\
            \"notices_digest\":\"e3b0c44298fc1c149afbf4c8996fb92427ae41e4649b934ca495991b7852b855\",\
            \"tariffs\":\"e3b0c44298fc1c149afbf4c8996fb92427ae41e4649b934ca495991b7852b855\",\"total\":0,\"tuples\":0}]",
    },
    Row {
        request: b"POST /days/104 HTTP/1.1\r\nContent-Length: 0\r\n\r\n",
        end: SessionEnd::Answered(200),
        status: "200 OK",
        body: "{\"bytes\":0,\"day\":104,\
            \"digest\":\"e3b0c44298fc1c149afbf4c8996fb92427ae41e4649b934ca495991b7852b855\",\"notices\":0,\
            \"notices_digest\":\"e3b0c44298fc1c149afbf4c8996fb92427ae41e4649b934ca495991b7852b855\",\"outcome\":\"stored\",\
            \"tariffs\":\"e3b0c44298fc1c149afbf4c8996fb92427ae41e4649b934ca495991b7852b855\",\"total\":0,\"tuples\":0}",
    },
    Row {
        request: b"POST /days/107 HTTP/1.1\r\nContent-Length: 0\r\n\r\n",
        end: SessionEnd::Answered(200),
        status: "200 OK",
        body: "{\"bytes\":0,\"day\":107,\
            \"digest\":\"e3b0c44298fc1c149afbf4c8996fb92427ae41e4649b934ca495991b7852b855\",\"notices\":0,\
            \"notices_digest\":\"e3b0c44298fc1c149afbf4c8996fb92427ae41e4649b934ca495991b7852b855\",\"outcome\":\"stored\",\
            \"tariffs\":\"e3b0c44298fc1c149afbf4c8996fb92427ae41e4649b934ca495991b7852b855\",\"total\":0,\"tuples\":0}",
    },
    Row {
        request: b"GET /days HTTP/1.1\r\n\r\n",
        end: SessionEnd::Answered(200),
        status: "200 OK",
        body: "[{\"bytes\":0,\"day\":100,\
            \"digest\":\"e3b0c44298fc1c149afbf4c8996fb92427ae41e4649b934ca495991b7852b855\",\"notices\":0,\
            \"notices_digest\":\"e3b0c44298fc1c149afbf4c8996fb92427ae41e4649b934ca495991b7852b855\",\
            \"tariffs\":\"e3b0c44298fc1c149afbf4c8996fb92427ae41e4649b934ca495991b7852b855\",\"total\":0,\"tuples\":0}\
            ,{\"bytes\":0,\"day\":104,\
            \"digest\":\"e3b0c44298fc1c149afbf4c8996fb92427ae41e4649b934ca495991b7852b855\",\"notices\":0,\
            \"notices_digest\":\"e3b0c44298fc1c149afbf4c8996fb92427ae41e4649b934ca495991b7852b855\",\
            \"tariffs\":\"e3b0c44298fc1c149afbf4c8996fb92427ae41e4649b934ca495991b7852b855\",\"total\":0,\"tuples\":0}\
            ,{\"bytes\":0,\"day\":107,\
            \"digest\":\"e3b0c44298fc1c149afbf4c8996fb92427ae41e4649b934ca495991b7852b855\",\"notices\":0,\
            \"notices_digest\":\"e3b0c44298fc1c149afbf4c8996fb92427ae41e4649b934ca495991b7852b855\",\
            \"tariffs\":\"e3b0c44298fc1c149afbf4c8996fb92427ae41e4649b934ca495991b7852b855\",\"total\":0,\"tuples\":0}]",
    },
    Row {
        request: b"GET /days/104 HTTP/1.1\r\n\r\n",
        end: SessionEnd::Answered(200),
        status: "200 OK",
        body: "{\"bytes\":0,\"day\":104,\
            \"digest\":\"e3b0c44298fc1c149afbf4c8996fb92427ae41e4649b934ca495991b7852b855\",\"notices\":0,\
            \"notices_digest\":\"e3b0c44298fc1c149afbf4c8996fb92427ae41e4649b934ca495991b7852b855\",\
            \"tariffs\":\"e3b0c44298fc1c149afbf4c8996fb92427ae41e4649b934ca495991b7852b855\",\"total\":0,\"tuples\":0}",
    },
    Row {
        request: b"GET /days/103 HTTP/1.1\r\n\r\n",
        end: SessionEnd::Answered(404),
        status: "404 Not Found",
        body: "{\"error\":\"no day\"}",
    },
    Row {
        request: b"GET /vehicles/7/100/107 HTTP/1.1\r\n\r\n",
        end: SessionEnd::Answered(200),
        status: "200 OK",
        body: "{\"amounts\":[],\"from\":100,\"to\":107,\"total\":0,\"vid\":7}",
    },
];

/// What is asked after a charge of vehicle 100 on expressway 0 on day 100, and one of vehicle 177 on expressway 5 on
/// day 104.
pub const AFTER_TWO_DAYS: [Row; 14] = [
    Row {
        request: b"GET /spent/104/5/177 HTTP/1.1\r\n\r\n",
        end: SessionEnd::Answered(200),
        status: "200 OK",
        body: "{\"spent\":2}",
    },
    Row {
        request: b"GET /spent/104/0/177 HTTP/1.1\r\n\r\n",
        end: SessionEnd::Answered(200),
        status: "200 OK",
        body: "{\"spent\":0}",
    },
    Row {
        request: b"GET /spent/100/5/177 HTTP/1.1\r\n\r\n",
        end: SessionEnd::Answered(200),
        status: "200 OK",
        body: "{\"spent\":0}",
    },
    Row {
        request: b"GET /spent/104/5/100 HTTP/1.1\r\n\r\n",
        end: SessionEnd::Answered(200),
        status: "200 OK",
        body: "{\"spent\":0}",
    },
    Row {
        request: b"GET /spent/103/5/177 HTTP/1.1\r\n\r\n",
        end: SessionEnd::Answered(200),
        status: "200 OK",
        body: "{\"spent\":0}",
    },
    Row {
        request: b"GET /spent/177/5/104 HTTP/1.1\r\n\r\n",
        end: SessionEnd::Answered(200),
        status: "200 OK",
        body: "{\"spent\":0}",
    },
    Row {
        request: b"GET /spent/100/0/100 HTTP/1.1\r\n\r\n",
        end: SessionEnd::Answered(200),
        status: "200 OK",
        body: "{\"spent\":2}",
    },
    Row {
        request: b"GET /vehicles/177/104/104 HTTP/1.1\r\n\r\n",
        end: SessionEnd::Answered(200),
        status: "200 OK",
        body: "{\"amounts\":[{\"day\":104,\"tolls\":2,\"xway\":5}],\"from\":104,\"to\":104,\"total\":2,\"vid\":177}",
    },
    Row {
        request: b"GET /vehicles/177/1/103 HTTP/1.1\r\n\r\n",
        end: SessionEnd::Answered(200),
        status: "200 OK",
        body: "{\"amounts\":[],\"from\":1,\"to\":103,\"total\":0,\"vid\":177}",
    },
    Row {
        request: b"GET /vehicles/177/105/1000000 HTTP/1.1\r\n\r\n",
        end: SessionEnd::Answered(200),
        status: "200 OK",
        body: "{\"amounts\":[],\"from\":105,\"to\":1000000,\"total\":0,\"vid\":177}",
    },
    Row {
        request: b"GET /vehicles/100/100/104 HTTP/1.1\r\n\r\n",
        end: SessionEnd::Answered(200),
        status: "200 OK",
        body: "{\"amounts\":[{\"day\":100,\"tolls\":2,\"xway\":0}],\"from\":100,\"to\":104,\"total\":2,\"vid\":100}",
    },
    Row {
        request: b"GET /vehicles/100/101/104 HTTP/1.1\r\n\r\n",
        end: SessionEnd::Answered(200),
        status: "200 OK",
        body: "{\"amounts\":[],\"from\":101,\"to\":104,\"total\":0,\"vid\":100}",
    },
    Row {
        request: b"GET /vehicles/104/1/1000 HTTP/1.1\r\n\r\n",
        end: SessionEnd::Answered(200),
        status: "200 OK",
        body: "{\"amounts\":[],\"from\":1,\"to\":1000,\"total\":0,\"vid\":104}",
    },
    Row {
        request: b"GET /live/177 HTTP/1.1\r\n\r\n",
        end: SessionEnd::Answered(200),
        status: "200 OK",
        body: "{\"as_of\":56,\"balance\":2,\"day\":104}",
    },
];

/// Kept days are listed in the order of days, whatever days between them are not kept.
#[test]
fn kept_days_are_listed(rt: HostRuntime) -> Result<(), NoMemory> {
    let (_, wrong) = asked_of_a_new_desk(rt, rt.alloc(), Asking::Listed)?;
    assert_eq!(rt; wrong, LISTED.len());
    Ok(())
}

/// An amount is that of its day, its expressway and its vehicle, and a statement has those of its days alone.
#[test]
fn each_amount_is_its_own(rt: HostRuntime) -> Result<(), NoMemory> {
    let (end, wrong) = asked_of_a_new_desk(rt, rt.alloc(), Asking::TwoDays)?;
    assert_eq!(rt; end, SessionEnd::Answered(200));
    assert_eq!(rt; wrong, AFTER_TWO_DAYS.len());
    Ok(())
}

/// How a session of a new desk over a link of these bytes ends, and what was written.
fn ask_new<R: Wait + Threads + Drop + Copy>(
    rt: R,
    alloc: Global,
    input: &[u8],
    piece: usize,
) -> Result<(SessionEnd, Vec<u8>), NoMemory> {
    let keeper = MemKeeper::new(alloc, &[])?;
    let Board { writer, readers } = board(rt, alloc, 1)?;
    let mut readers = readers.into_vec();
    let mut desk = desk_of(rt, alloc, keeper, writer);
    let came = match readers.pop() {
        Some(mut reader) => ask(alloc, &mut desk, &mut reader, input, piece),
        None => Err(NoMemory),
    };
    end_desk(desk);
    came
}

/// How the answer that has the page begins.
const PAGE_FRONT: &[u8] =
    b"HTTP/1.1 200 OK\r\nContent-Length: 16151\r\nContent-Type: text/html; charset=utf-8\r\n\
        X-Frame-Options: DENY\r\nX-Content-Type-Options: nosniff\r\nCache-Control: no-store\r\n\
        Connection: close\r\n\r\n<!DOCTYPE html>\n<html lang='en'>\n<head>\n<meta charset='utf-8'>\n";

/// The page is answered whole, with its type and its length.
#[test]
fn the_page_is_answered(rt: HostRuntime) -> Result<(), NoMemory> {
    let request = b"GET / HTTP/1.1\r\nHost: 127.0.0.1:8080\r\n\r\n";
    let (end, written) = ask_new(rt, rt.alloc(), request, 100)?;
    assert_eq!(rt; end, SessionEnd::Answered(200));
    assert!(rt; written.starts_with(PAGE_FRONT));
    assert!(rt; written.ends_with(b"watch();\n</script>\n</body>\n</html>\n"));
    assert_eq!(rt; written.len(), 16151 + 182);
    Ok(())
}

/// The record of a day of 100,000 empty lines.
pub const LONG_DAY: &str = "{\"bytes\":100000,\"day\":123,\
    \"digest\":\"dfaa58d53bfd69721640839b11946d66a6feca615428c09984c93caa719b6370\",\"notices\":0,\
    \"notices_digest\":\"e3b0c44298fc1c149afbf4c8996fb92427ae41e4649b934ca495991b7852b855\",\"outcome\":\"stored\",\
    \"tariffs\":\"e3b0c44298fc1c149afbf4c8996fb92427ae41e4649b934ca495991b7852b855\",\"total\":0,\"tuples\":0}";

/// A POST of day 123, which has 100,000 empty lines.
pub fn long_post(alloc: Global) -> Result<Vec<u8>, NoMemory> {
    let mut lines = Vec::new(alloc);
    for _ in 0..100_000u32 {
        lines.push(b'\n')?;
    }
    post_of(alloc, 123, lines.as_slice())
}

/// A POST of 100,000 bytes in pieces of 10,000 is read to its end and stored.
#[test]
fn a_long_post_in_pieces_is_stored(rt: HostRuntime) -> Result<(), NoMemory> {
    let request = long_post(rt.alloc())?;
    let (end, written) = ask_new(rt, rt.alloc(), request.as_slice(), 10_000)?;
    let wanted = answer_of(rt.alloc(), "200 OK", LONG_DAY)?;
    assert_eq!(rt; end, SessionEnd::Answered(200));
    assert_eq!(rt; written.as_slice(), wanted.as_bytes());
    Ok(())
}
