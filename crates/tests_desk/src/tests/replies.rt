// The bytes of answers.
use http::StatusCode;
use keep_office::DayRecord;
use road_digest::Digest;
use road_time::{NoMemory, SpentRow};
use serve_requests::{
    day_body, days_body, differs_body, error_body, health_body, imported_body, live_body,
    no_memory_text, passed_body, refused_body, reply_text, spent_body, total_body, vehicle_body,
};
use tuples_text::Cause;

/// The digest of no bytes.
const NOTHING: Digest = Digest {
    bytes: [
        0xe3, 0xb0, 0xc4, 0x42, 0x98, 0xfc, 0x1c, 0x14, 0x9a, 0xfb, 0xf4, 0xc8, 0x99, 0x6f, 0xb9,
        0x24, 0x27, 0xae, 0x41, 0xe4, 0x64, 0x9b, 0x93, 0x4c, 0xa4, 0x95, 0x99, 0x1b, 0x78, 0x52,
        0xb8, 0x55,
    ],
};

/// An empty day that is kept.
const EMPTY: DayRecord = DayRecord {
    day: 100,
    digest: NOTHING,
    bytes: 0,
    tuples: 0,
    notices: 0,
    notices_digest: NOTHING,
    tariffs: NOTHING,
    total: 0,
};

/// The body of the import of that day.
const IMPORTED: &str = "{\"bytes\":0,\"day\":100,\
    \"digest\":\"e3b0c44298fc1c149afbf4c8996fb92427ae41e4649b934ca495991b7852b855\",\"notices\":0,\
    \"notices_digest\":\"e3b0c44298fc1c149afbf4c8996fb92427ae41e4649b934ca495991b7852b855\",\
    \"outcome\":\"stored\",\
    \"tariffs\":\"e3b0c44298fc1c149afbf4c8996fb92427ae41e4649b934ca495991b7852b855\",\"total\":0,\
    \"tuples\":0}";

/// How its answer begins.
const FRONT: &str =
    "HTTP/1.1 200 OK\r\nContent-Length: 310\r\nContent-Type: application/json\r\nConnection: close\r\n\r\n\
    {\"bytes\":0,";

/// A day with more in it, and its body.
const BUSY: DayRecord = DayRecord {
    bytes: 1999,
    tuples: 56,
    notices: 57,
    total: u64::MAX,
    ..EMPTY
};

/// The body of that day.
const OF_A_BUSY_DAY: &str = "{\"bytes\":1999,\"day\":100,\
    \"digest\":\"e3b0c44298fc1c149afbf4c8996fb92427ae41e4649b934ca495991b7852b855\",\"notices\":57,\
    \"notices_digest\":\"e3b0c44298fc1c149afbf4c8996fb92427ae41e4649b934ca495991b7852b855\",\
    \"tariffs\":\"e3b0c44298fc1c149afbf4c8996fb92427ae41e4649b934ca495991b7852b855\",\
    \"total\":18446744073709551615,\"tuples\":56}";

/// The body where a day differs from the one that is kept.
const OF_OTHERS: &str =
    "{\"error\":\"differs\",\"found\":\"0a0a0a0a0a0a0a0a0a0a0a0a0a0a0a0a0a0a0a0a0a0a0a0a0a0a0a0a0a0a0a0a\",\
    \"kept\":\"e3b0c44298fc1c149afbf4c8996fb92427ae41e4649b934ca495991b7852b855\"}";

/// Whether a text is this one.
fn is(text: String, wanted: &str) -> bool {
    text.as_str() == wanted
}

/// The texts of bodies that have a digest.
#[test]
fn bodies_with_digests(rt: HostRuntime) -> Result<(), NoMemory> {
    let other = Digest { bytes: [0x0a; 32] };
    assert!(rt; is(imported_body(rt.alloc(), &EMPTY, "stored")?, IMPORTED));
    assert!(rt; is(day_body(rt.alloc(), &BUSY)?, OF_A_BUSY_DAY));
    assert!(rt; is(differs_body(rt.alloc(), &NOTHING, &other)?, OF_OTHERS));
    Ok(())
}

#[test]
fn answers(rt: HostRuntime) -> Result<(), NoMemory> {
    let reply = reply_text(rt.alloc(), StatusCode::OK, IMPORTED)?;
    assert!(rt; reply.as_str().starts_with(FRONT));
    let text = "{\"error\":\"memory\"}";
    let memory = reply_text(rt.alloc(), StatusCode::INTERNAL_SERVER_ERROR, text)?;
    assert!(rt; memory.as_bytes() == no_memory_text());
    Ok(())
}

#[test]
fn bodies(rt: HostRuntime) -> Result<(), NoMemory> {
    let late = Cause::Late(10, 9);
    let refused = "{\"cause\":\"late 10 9\",\"error\":\"refused\",\"line\":3}";
    let live = "{\"as_of\":56,\"balance\":2,\"day\":100}";
    let total = "{\"as_of\":56,\"day\":100,\"total\":2}";
    assert!(rt; is(error_body(rt.alloc(), "no day")?, "{\"error\":\"no day\"}"));
    assert!(rt; is(error_body(rt.alloc(), "memory")?, "{\"error\":\"memory\"}"));
    assert!(rt;
        is(
            passed_body(rt.alloc(), 100)?,
            "{\"error\":\"passed\",\"last\":100}"
        )
    );
    assert!(rt; is(refused_body(rt.alloc(), 3, &late)?, refused));
    assert!(rt; is(spent_body(rt.alloc(), 2)?, "{\"spent\":2}"));
    assert!(rt; is(health_body(rt.alloc(), 100)?, "{\"last_day\":100}"));
    assert!(rt; is(live_body(rt.alloc(), 56, 2, 100)?, live));
    assert!(rt; is(total_body(rt.alloc(), 56, 100, 2)?, total));
    Ok(())
}

/// Two amounts, the greatest that there are.
const AMOUNTS: [SpentRow; 2] = [
    SpentRow {
        day: 69,
        vid: 177,
        xway: 5,
        tolls: u64::MAX,
    },
    SpentRow {
        day: 104,
        vid: 177,
        xway: 255,
        tolls: u64::MAX,
    },
];

/// The statement of these.
const OF_A_VEHICLE: &str = "{\"amounts\":[{\"day\":69,\"tolls\":18446744073709551615,\"xway\":5},\
        {\"day\":104,\"tolls\":18446744073709551615,\"xway\":255}],\"from\":1,\"to\":1000000,\
        \"total\":36893488147419103230,\"vid\":177}";

/// The texts of bodies that hold an array.
#[test]
fn bodies_with_arrays(rt: HostRuntime) -> Result<(), NoMemory> {
    let two = format!(in rt.alloc(); "[{OF_A_BUSY_DAY},{OF_A_BUSY_DAY}]")?;
    assert!(rt; is(days_body(rt.alloc(), &[])?, "[]"));
    assert!(rt; is(days_body(rt.alloc(), &[BUSY, BUSY])?, two.as_str()));
    assert!(rt;
        is(
            vehicle_body(rt.alloc(), 177, 1, 1000000, &AMOUNTS)?,
            OF_A_VEHICLE
        )
    );
    Ok(())
}
