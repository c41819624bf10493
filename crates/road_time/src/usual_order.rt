// In which order the entries of a map are looked for. Who was looked for after whom before is likely to be so again,
// as the vehicles of a road report in the same order each half minute: an entry that is guessed right is found by no
// hash. Nothing rests on a guess being right.

ghost use Rattle.std.specs.Prelude.{◌≡◌, ◌≤◌, ◌<◌, ◌+◌, ℕ, [], nat_eq, slice_get, option_copied, length, Some, None};
ghost use Rattle.std.specs.Prelude.{IfSome, IfNone};
ghost use Rattle.indexmap.specs.IndexMap.{get};

use indexmap::IndexMap;
use std::alloc::Global;

/// Which entry was looked for after which, and which one last.
#[derive(Drop)]
pub struct UsualOrder {
    next: Vec<u32>,
    last: usize,
}

impl UsualOrder {
    /// Nothing was looked for. It takes no memory.
    pub fn new(alloc: Global) -> Self
        ensures none { result.next.items ≡ [] }
        ensures first { result.last ≡ 0 }
    {
        UsualOrder {
            next: Vec::new(alloc),
            last: 0,
        }
    }

    /// Where the entry stands that was looked for after the last one before.
    #[inline(always)]
    pub fn guess(&self) -> usize {
        match self.next.get(self.last) {
            Some(at) => *at as usize,
            None => 0,
        }
    }

    /// The entry at this place was looked for, which is to be guessed after the last one from now on. Where memory
    /// runs out it is not. One guess is kept for each entry at most.
    #[inline(always)]
    pub fn follow(&mut self, at: usize)
        ensures last { self.new.last ≡ at }
        ensures most { length self.new.next.items ≤ length self.old.next.items + 1 }
        ensures again { self.old.last < length self.old.next.items
            → length self.new.next.items ≡ length self.old.next.items }
        ensures few { (entries : ℕ) → self.old.last < entries → length self.old.next.items ≤ entries
            → length self.new.next.items ≤ entries }
    {
        let short = at.min(u32::MAX as usize) as u32;
        if let Some(next) = self.next.get_mut(self.last) {
            *next = short;
        } else if self.next.push(short).is_err() {}
        self.last = at;
    }
}

/// The place of a key: at a guess, or where its hash leads.
#[inline(always)]
pub fn find<V>(entries: &IndexMap<u32, V>, guess: usize, key: u32) -> Option<usize>
    ensures found { IfSome result (λ at. (value : V) × (slice_get entries.now.entries at ≡ Some (key, value))) }
    ensures none { IfNone result (get nat_eq entries.now key ≡ None) }
{
    if let Some((kept, _)) = entries.get_index(guess) {
        if *kept == key {
            return Some(guess);
        }
    }
    entries.get_index_of(&key)
}

/// The value of a key: at a guess, or where its hash leads.
#[inline(always)]
pub fn look<V>(entries: &IndexMap<u32, V>, guess: usize, key: u32) -> Option<&V>
    ensures { option_copied result ≡ get nat_eq entries.now key }
{
    if let Some((kept, value)) = entries.get_index(guess) {
        if *kept == key {
            return Some(value);
        }
    }
    entries.get(&key)
}
