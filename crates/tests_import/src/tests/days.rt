// Days of few lines.
use std::alloc::{AllocError, Global};

/// Two vehicles stand at one place eastbound until one is told on another way; two others come later.
pub const STOPPED_ON_ANOTHER_WAY: &[u8] = b"0,0,1,0,0,2,0,10,55000,-1,-1,-1,-1,-1,-1\n\
0,0,2,0,0,2,0,10,55000,-1,-1,-1,-1,-1,-1\n\
0,30,1,0,0,2,0,10,55000,-1,-1,-1,-1,-1,-1\n\
0,30,2,0,0,2,0,10,55000,-1,-1,-1,-1,-1,-1\n\
0,60,1,0,0,2,0,10,55000,-1,-1,-1,-1,-1,-1\n\
0,60,2,0,0,2,0,10,55000,-1,-1,-1,-1,-1,-1\n\
0,90,1,0,0,2,0,10,55000,-1,-1,-1,-1,-1,-1\n\
0,90,2,0,0,2,0,10,55000,-1,-1,-1,-1,-1,-1\n\
0,130,2,50,1,0,0,3,15840,-1,-1,-1,-1,-1,-1\n\
0,180,3,50,0,1,0,10,52800,-1,-1,-1,-1,-1,-1\n\
0,240,4,50,0,1,0,10,52800,-1,-1,-1,-1,-1,-1\n";

/// What they are told.
pub const STOPPED_TOLD: &[u8] =
    b"0,1,0,-1,0\n0,2,0,-1,0\n0,2,130,-1,0\n1,180,3,10\n0,3,180,0,0\n0,4,240,16,0\n";

/// A vehicle comes to a crowd a minute after it, leaves its stretch, so that it is charged, then the road, comes back
/// on another expressway, and asks what it paid.
const CHARGED: &[u8] = b"0,60,100,30,0,1,0,10,52800,-1,-1,-1,-1,-1,-1\n\
0,90,100,30,0,1,0,11,58080,-1,-1,-1,-1,-1,-1\n\
0,120,100,30,0,4,0,11,60000,-1,-1,-1,-1,-1,-1\n\
0,150,100,30,1,0,0,5,26400,-1,-1,-1,-1,-1,-1\n\
2,160,100,-1,-1,-1,-1,-1,-1,9,-1,-1,-1,-1,-1\n";

/// A crowd of fifty-one, and that vehicle.
pub fn charged_on_leaving(alloc: Global) -> Result<Vec<u8>, AllocError> {
    let mut input = Vec::new(alloc);
    for vid in 1..52u32 {
        let line = format!(in alloc; "0,0,{vid},30,0,1,0,10,52800,-1,-1,-1,-1,-1,-1\n")?;
        input.extend_from_slice(line.as_bytes())?;
    }
    input.extend_from_slice(CHARGED)?;
    Ok(input)
}

/// What the crowd is told, each with this toll, and then this.
pub fn told_with(alloc: Global, toll: u64, rest: &str) -> Result<Vec<u8>, AllocError> {
    let mut text = Vec::new(alloc);
    for vid in 1..52u32 {
        let line = format!(in alloc; "0,{vid},0,-1,{toll}\n")?;
        text.extend_from_slice(line.as_bytes())?;
    }
    text.extend_from_slice(rest.as_bytes())?;
    Ok(text)
}
