// A link behind bytes that came before.
ghost use Rattle.std.specs.Prelude.{◌<◌, length};

use road_io::{Failed, Link, MemLink};
use road_time::NoMemory;
use serve_room::FrontLink;
use std::alloc::Global;

/// What a link gives at each of some calls, four bytes at most: how many, and the first of them.
fn read_all<L: Link>(
    line: &mut L,
    calls: u8,
    alloc: Global,
) -> Result<Vec<Option<[u8; 4]>>, NoMemory> {
    let mut given = Vec::new(alloc);
    for _ in 0..calls {
        let mut buf = [b'.'; 4];
        match line.read(&mut buf) {
            Ok(_) => given.push(Some(buf))?,
            Err(Failed) => given.push(None)?,
        }
    }
    Ok(given)
}

/// What came before is read first, then the link, whose second read fails; what is written goes to the link.
#[test]
fn what_came_before_is_read_first(rt: HostRuntime) -> Result<(), NoMemory> {
    let alloc = rt.alloc();
    let link = MemLink::new(alloc, b"12345", 3, 9, &[1])?;
    let mut line = FrontLink::over(Vec::from_slice(alloc, b"abcdef")?, link, 7);
    let given = read_all(&mut line, 6, alloc);
    let sent = line.write(b"told");
    line.finish();
    let (link, kept) = line.into_parts();
    let wanted = [
        Some(*b"abcd"),
        Some(*b"ef.."),
        Some(*b"123."),
        None,
        Some(*b"45.."),
        Some(*b"...."),
    ];
    assert!(rt; given?.as_slice() == wanted.as_slice());
    assert_eq!(rt; sent, Ok(3));
    assert!(rt; link.bytes() == b"tol".as_slice());
    assert_eq!(rt; kept, 7);
    Ok(())
}
