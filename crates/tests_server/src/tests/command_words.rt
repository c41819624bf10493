// What no clause says: that words written out mean what a reader expects.
mod rows;

use office_words::{Command, WordFault, read_words};
use rows::{
    COMMANDS, NO_COMMANDS, NOT_ON_AUDITS, NOT_ON_KEPT_STATE, NOT_ON_TRAFFIC, NOT_ON_WORKERS,
    ON_AUDITS, ON_KEPT_STATE, ON_TRAFFIC, ON_WORKERS, Row,
};
use std::alloc::{AllocError, Global};

fn owned(alloc: Global, words: &[&str]) -> Result<Vec<String>, AllocError> {
    let mut all = Vec::new(alloc);
    for word in words {
        all.push(String::from_str(alloc, word)?)?;
    }
    Ok(all)
}

fn read(alloc: Global, words: &[&str]) -> Result<Command, WordFault> {
    match owned(alloc, words) {
        Ok(words) => read_words(alloc, words.as_slice()),
        Err(_) => Err(WordFault::NoMemory),
    }
}

/// The number of the first words that mean something else, their count where none do.
fn first_misread(alloc: Global, rows: &[Row]) -> usize {
    for (at, (words, command)) in rows.iter().enumerate() {
        if read(alloc, words) != *command {
            return at;
        }
    }
    rows.len()
}

/// The number of the first words that are of a stated form, their count where none are.
fn first_read(alloc: Global, rows: &[&[&str]]) -> usize {
    for (at, words) in rows.iter().enumerate() {
        if read(alloc, words) != Err(WordFault::Words) {
            return at;
        }
    }
    rows.len()
}

#[test]
fn words_and_their_commands(rt: HostRuntime) {
    assert_eq!(rt; first_misread(rt.alloc(), &COMMANDS), COMMANDS.len());
    assert_eq!(rt; first_read(rt.alloc(), &NO_COMMANDS), NO_COMMANDS.len());
}

#[test]
fn words_and_the_commands_on_kept_state(rt: HostRuntime) {
    assert_eq!(rt;
        first_misread(rt.alloc(), &ON_KEPT_STATE),
        ON_KEPT_STATE.len()
    );
    assert_eq!(rt;
        first_read(rt.alloc(), &NOT_ON_KEPT_STATE),
        NOT_ON_KEPT_STATE.len()
    );
}

#[test]
fn words_and_the_commands_on_traffic(rt: HostRuntime) {
    assert_eq!(rt; first_misread(rt.alloc(), &ON_TRAFFIC), ON_TRAFFIC.len());
    assert_eq!(rt;
        first_read(rt.alloc(), &NOT_ON_TRAFFIC),
        NOT_ON_TRAFFIC.len()
    );
}

#[test]
fn words_and_how_the_work_is_done(rt: HostRuntime) {
    assert_eq!(rt; first_misread(rt.alloc(), &ON_WORKERS), ON_WORKERS.len());
    assert_eq!(rt;
        first_read(rt.alloc(), &NOT_ON_WORKERS),
        NOT_ON_WORKERS.len()
    );
}

#[test]
fn words_and_how_a_day_is_recomputed(rt: HostRuntime) {
    assert_eq!(rt; first_misread(rt.alloc(), &ON_AUDITS), ON_AUDITS.len());
    assert_eq!(rt; first_read(rt.alloc(), &NOT_ON_AUDITS), NOT_ON_AUDITS.len());
}
