// The words that a program is given.
use road_time::NoMemory;
use std::env;
use std::io::ErrorKind;
use std::rt::HostRuntime;

/// The words after the program's name; none where they are no text.
pub fn words_of(rt: &HostRuntime) -> Result<Vec<String>, NoMemory> {
    let mut words = Vec::new(rt.alloc());
    match env::args(rt) {
        Ok(args) => {
            for word in args.skip(1) {
                words.push(word)?;
            }
        }
        Err(error) => {
            if error.kind() == ErrorKind::OutOfMemory {
                return Err(NoMemory);
            }
        }
    }
    Ok(words)
}
