// The digests of known texts, in pieces and chunks of several sizes.
use super::records::has_text;
use road_digest::BesideDigester;
use std::alloc::Global;
use std::thread::Threads;

/// "abc", and the longest of the standard's short texts.
const TEXTS: [(&str, &str); 3] = [
    (
        "",
        "e3b0c44298fc1c149afbf4c8996fb92427ae41e4649b934ca495991b7852b855",
    ),
    (
        "abc",
        "ba7816bf8f01cfea414140de5dae2223b00361a396177a9cb410ff61f20015ad",
    ),
    (
        "abcdbcdecdefdefgefghfghighijhijkijkljklmklmnlmnomnopnopq",
        "248d6a61d20638b8e5c026930c3e6039a33ce45964ff2167f6ecedd419db06c1",
    ),
];

/// Whether a text has this digest, in pieces of some size and chunks of at most so many bytes.
fn is_digested<R: Threads>(
    rt: &R,
    alloc: Global,
    row: &(&str, &str),
    chunk: usize,
    size: usize,
) -> bool {
    let mut digester = BesideDigester::new(alloc, chunk, 262_144);
    for piece in row.0.as_bytes().chunks(size.max(1)) {
        digester.add(rt, piece);
    }
    has_text(alloc, &digester.finish(rt), row.1)
}

/// Whether each text has its digest.
fn are_digested<R: Threads>(rt: &R, alloc: Global, texts: &[(&str, &str)]) -> bool {
    for row in texts {
        let same = is_digested(rt, alloc, row, 0, 1)
            && is_digested(rt, alloc, row, 4, 3)
            && is_digested(rt, alloc, row, 64, 7)
            && is_digested(rt, alloc, row, 262_144, 64);
        if !same {
            return false;
        }
    }
    true
}

/// A digester that is closed gives no digest.
fn is_closed<R: Threads>(rt: &R, alloc: Global) {
    let mut left = BesideDigester::new(alloc, 0, 0);
    left.add(rt, b"abc");
    left.close(rt);
}

#[test]
fn known_texts_in_pieces(rt: HostRuntime) {
    assert!(rt; are_digested(&rt, rt.alloc(), &TEXTS));
    is_closed(&rt, rt.alloc());
}
