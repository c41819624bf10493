// How long a command waits for who has the file open.
ghost use Rattle.std.specs.Prelude.{◌≡◌, ◌<◌, IfSome, true, map, length};
ghost use Rattle.std.specs.Prelude.{string_bytes};
ghost use Rattle.std.specs.List.{position};
ghost use Rattle.office_words.specs.Waits.{seconds_of, seconds_joined, seconds_apart, is_met, wait_from, wait_of, words_left};

use crate::numbers::number;

/// The most seconds that a command waits.
pub const LONGEST: u64 = 3600;

/// How many seconds it waits where the words say nothing of it.
pub const WAIT: u32 = 5;

/// What the words of the command line say of the wait, and the words that are left.
pub struct WordsLeft {
    /// How many seconds the command waits for who has the file open, 0 to 3,600.
    pub seconds: u32,
    pub words: Vec<String>,
}

/// The seconds that a text is.
fn seconds(text: &str) -> Option<u32>
    ensures value { result ≡ seconds_of text.now }
{
    let n = number(text, 0, LONGEST)?;
    Some(n as u32)
}

/// The seconds that a word says as `--wait=N`.
fn joined(word: &str) -> Option<u32>
    ensures { result ≡ seconds_joined word.now }
{
    let text = word.strip_prefix("--wait=")?;
    seconds(text)
}

/// Whether a word ends the options or says the wait.
fn is_met(word: &str) -> bool
    ensures { result ≡ is_met word.now }
{
    word == "--" || word == "--wait" || joined(word).is_some()
}

/// The place of the first such word.
fn place_met(words: &[String]) -> Option<usize>
    ensures value { result ≡ position (λ word. is_met (string_bytes word)) words.now }
    ensures within { IfSome result (λ place. place < length words.now) }
{
    words.iter().position(|word| is_met(word.as_str()))
}

/// The seconds that the first of the words says behind `--wait`.
fn apart(words: &[String]) -> Option<u32>
    ensures { result ≡ seconds_apart (map string_bytes words.now) }
{
    let text = words.first()?;
    seconds(text.as_str())
}

/// The seconds that the words begin with, and whether they stand apart, in a word behind `--wait`.
fn from(words: &[String]) -> Option<(u32, bool)>
    ensures value { result ≡ wait_from (map string_bytes words.now) }
    ensures within { IfSome result (λ said. said.1 ≡ true → 1 < length words.now) }
{
    let (word, rest) = words.split_first()?;
    if word.as_str() == "--wait" {
        let n = apart(rest)?;
        return Some((n, true));
    }
    let n = joined(word.as_str())?;
    Some((n, false))
}

/// Takes `--wait N` or `--wait=N` off the words, wherever it stands before a word `--`. Where N is no number of 0 to
/// 3,600, it stays, and so do a second one and one behind `--`: no command has an option of this name.
pub fn wait_taken(words: Vec<String>) -> WordsLeft
    ensures seconds { result.seconds ≡ wait_of (map string_bytes words.items) }
    ensures words { map string_bytes result.words.items ≡ words_left (map string_bytes words.items) }
{
    let mut words = words;
    let Some(place) = place_met(words.as_slice()) else {
        return WordsLeft {
            seconds: WAIT,
            words,
        };
    };
    let rest = words.as_slice().split_at(place).1;
    let Some((seconds, apart)) = from(rest) else {
        return WordsLeft {
            seconds: WAIT,
            words,
        };
    };
    words.remove(place);
    if apart {
        words.remove(place);
        return WordsLeft { seconds, words };
    }
    WordsLeft { seconds, words }
}
