// Days by their lines.
use std::alloc::Global;
use std::test::Fail;

/// A vehicle comes to a crowd a minute after it, leaves the crowded stretch, so that it is charged, then the road, comes
/// back on another expressway, and asks.
pub const LEAVES: [&str; 5] = [
    "0,60,100,30,0,1,0,10,52800",
    "0,90,100,30,0,1,0,11,58080",
    "0,120,100,30,0,4,0,11,60000",
    "0,150,100,30,1,0,0,5,26400",
    "2,160,100,-1,-1,-1,-1,-1,-1,9",
];

/// Vehicles from `first` to `last` at second 0 in segment 10 eastbound.
#[derive(Clone, Copy)]
pub struct Crowd {
    pub first: u32,
    pub last: u32,
    pub spd: u32,
}

pub const FIFTY_ONE: [Crowd; 1] = [Crowd {
    first: 1,
    last: 51,
    spd: 30,
}];

/// How many bytes of a text are this one.
fn count(text: &[u8], wanted: u8) -> usize {
    let mut found = 0usize;
    for byte in text {
        if *byte == wanted {
            found = found.saturating_add(1);
        }
    }
    found
}

/// The lines of a crowd, and then these, each filled up with -1 to fifteen fields.
pub fn day(alloc: Global, crowds: &[Crowd], lines: &[&[&str]]) -> Result<Vec<u8>, Fail> {
    let mut text = Vec::new(alloc);
    for crowd in crowds {
        for vid in crowd.first..crowd.last.saturating_add(1) {
            let spd = crowd.spd;
            let line = format!(in alloc; "0,0,{vid},{spd},0,1,0,10,52800,-1,-1,-1,-1,-1,-1\n")?;
            text.extend_from_slice(line.as_bytes())?;
        }
    }
    for part in lines {
        for line in *part {
            text.extend_from_slice(line.as_bytes())?;
            for _ in count(line.as_bytes(), b',')..14 {
                text.extend_from_slice(b",-1")?;
            }
            text.push(b'\n')?;
        }
    }
    Ok(text)
}

/// What a crowd is told, and then this.
pub fn told(alloc: Global, crowds: &[Crowd], text: &str) -> Result<String, Fail> {
    let mut whole = String::new(alloc);
    for crowd in crowds {
        for vid in crowd.first..crowd.last.saturating_add(1) {
            let line = format!(in alloc; "0,{vid},0,-1,0\n")?;
            whole.push_str(line.as_str())?;
        }
    }
    whole.push_str(text)?;
    Ok(whole)
}
