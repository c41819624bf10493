// What no clause says: that words written out mean what a reader expects.
use office_words::WordFault;
use serve_top::{Serving, read_words};
use std::alloc::{AllocError, Global};

fn owned(alloc: Global, words: &[&str]) -> Result<Vec<String>, AllocError> {
    let mut all = Vec::new(alloc);
    for word in words {
        all.push(String::from_str(alloc, word)?)?;
    }
    Ok(all)
}

fn read(alloc: Global, words: &[&str]) -> Result<Serving, WordFault> {
    match owned(alloc, words) {
        Ok(words) => read_words(alloc, words.as_slice()),
        Err(_) => Err(WordFault::NoMemory),
    }
}

/// A server's port, sessions and readers.
macro_rules! serving {
    ($port:expr, $sessions:expr, $readers:expr) => {
        Ok(Serving {
            port: $port,
            sessions: $sessions,
            readers: $readers,
        })
    };
}

/// Words, and what they mean.
const SERVED: [(&[&str], Result<Serving, WordFault>); 8] = [
    (&["8080"], serving!(8080, 18_446_744_073_709_551_615, 4)),
    (&["08080"], serving!(8080, 18_446_744_073_709_551_615, 4)),
    (
        &["--", "65535"],
        serving!(65_535, 18_446_744_073_709_551_615, 4),
    ),
    (&["1", "--sessions", "2"], serving!(1, 2, 4)),
    (&["--sessions=2", "1"], serving!(1, 2, 4)),
    (
        &["--readers", "64", "1", "--sessions=1"],
        serving!(1, 1, 64),
    ),
    (
        &["1", "--readers=1"],
        serving!(1, 18_446_744_073_709_551_615, 1),
    ),
    (
        &["1", "--sessions", "18446744073709551615"],
        serving!(1, 18_446_744_073_709_551_615, 4),
    ),
];

/// Words of no stated form.
const REFUSED: [&[&str]; 17] = [
    &[],
    &["0"],
    &["65536"],
    &["+80"],
    &["80", "81"],
    &["000000000000000008080"],
    &["8080", "--sessions", "0"],
    &["8080", "--sessions", "18446744073709551616"],
    &["8080", "--sessions"],
    &["8080", "--sessions="],
    &["8080", "--sessions=1", "--sessions=1"],
    &["8080", "--readers", "0"],
    &["8080", "--readers", "65"],
    &["8080", "--reader", "1"],
    &["--readers", "1"],
    &["8080", "--help"],
    &["8080", "-h"],
];

#[test]
fn words_and_what_is_served(rt: HostRuntime) {
    for (words, serving) in &SERVED {
        assert!(rt; read(rt.alloc(), words) == *serving);
    }
    for words in &REFUSED {
        assert!(rt; read(rt.alloc(), words) == Err(WordFault::Words));
    }
}
