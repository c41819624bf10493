// The accidents of one stretch.
ghost use Rattle.std.specs.Prelude.{◌≡◌, ◌+◌, ◌-◌, ℕ, Bool, IfOk, if◌then◌else◌};
ghost use Rattle.ways_expressway.specs.History.{IsHistory, is_marked, stood_earlier, stood_lately, stood_last};

use road_time::NoMemory;

/// The accidents of a stretch: the places where one stands, the second since when one did without end,
/// and the last minutes in which one stood that has ended, 0 for none.
#[derive(Clone, Copy, Debug, PartialEq, Eq)]
pub struct Spell {
    pub places: u32,
    pub since: u32,
    pub last: u32,
    pub before: u32,
}

/// Nothing stands, and nothing stood.
pub(crate) const NONE: Spell = Spell {
    places: 0,
    since: 0,
    last: 0,
    before: 0,
};

/// An accident at one more place.
pub(crate) fn with_place(spell: Spell, second: u32) -> Result<Spell, NoMemory>
    ensures places { IfOk result (λ s. s.places ≡ spell.places + 1) }
    ensures history { IfOk result (λ s. (stood_at : ℕ → Bool) → IsHistory second spell stood_at
        → IsHistory second s stood_at) }
    ensures last { IfOk result (λ s. stood_last second s ≡ stood_last second spell) }
{
    match spell.places.checked_add(1) {
        None => Err(NoMemory),
        Some(places) => {
            let since = if spell.places == 0 {
                second
            } else {
                spell.since
            };
            Ok(Spell {
                places,
                since,
                last: spell.last,
                before: spell.before,
            })
        }
    }
}

/// Whether the minute is one of those marked.
fn stood_in(spell: Spell, minute: u32) -> bool
    ensures { result ≡ is_marked spell minute }
{
    spell.last == minute || spell.before == minute
}

/// Whether an accident stood in the minute before, where one stood until now.
fn earlier(spell: Spell, second: u32) -> bool
    ensures { result ≡ stood_earlier second spell }
{
    spell.since < 60 * (second / 60) || stood_in(spell, second / 60)
}

/// Whether an accident stood in this minute before this second, where one stood until now.
fn lately(spell: Spell, second: u32) -> bool
    ensures { result ≡ stood_lately second spell }
{
    spell.since < second && 60 * (second / 60) < second || stood_in(spell, second / 60 + 1)
}

/// The minute, or no minute.
fn mark_if(stood: bool, minute: u32) -> u32
    ensures { result ≡ (if stood then minute else 0) }
{
    if stood { minute } else { 0 }
}

/// An accident at one place less.
pub(crate) fn without_place(spell: Spell, second: u32) -> Spell
    ensures places { result.places ≡ spell.places - 1 }
    ensures history { (stood_at : ℕ → Bool) → IsHistory second spell stood_at → IsHistory second result stood_at }
    ensures last { stood_last second result ≡ stood_last second spell }
{
    if spell.places == 0 {
        spell
    } else if spell.places > 1 {
        Spell {
            places: spell.places - 1,
            since: spell.since,
            last: spell.last,
            before: spell.before,
        }
    } else {
        let last = mark_if(lately(spell, second), second / 60 + 1);
        let before = mark_if(earlier(spell, second), second / 60);
        Spell {
            places: 0,
            since: 0,
            last,
            before,
        }
    }
}

/// Whether an accident stood in the minute before.
pub(crate) fn stood_before(spell: Spell, second: u32) -> bool
    ensures { result ≡ stood_last second spell }
{
    second / 60 > 0
        && (spell.places >= 1 && spell.since < 60 * (second / 60) || stood_in(spell, second / 60))
}
