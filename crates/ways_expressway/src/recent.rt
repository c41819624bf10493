// The accidents of each stretch.
ghost use Rattle.std.specs.Prelude.{◌≡◌, ◌+◌, ◌-◌, ℕ, Bool, false, OnOk, OnErr, if◌then◌else◌};
ghost use Rattle.road_time.specs.Tuples.{same_stretch};
ghost use Rattle.road_time.specs.declared.road.Stretch.{Stretch as StretchValue};
ghost use Rattle.ways_expressway.specs.History.{IsHistory, stood_last};
ghost use Rattle.ways_expressway.specs.KeptAccidents.{spell_of};

use crate::spell::{NONE, Spell, with_place, without_place};
use indexmap::IndexMap;
use road_time::{NoMemory, Stretch};

/// What is kept of the stretch.
pub(crate) fn spell_at(spells: &IndexMap<Stretch, Spell>, stretch: Stretch) -> Spell
    ensures { result ≡ spell_of spells.now.entries stretch }
{
    spells.get(&stretch).copied().unwrap_or(NONE)
}

/// An accident at one more place of the stretch, if there is one.
pub(crate) fn begin_if(
    spells: &mut IndexMap<Stretch, Spell>,
    one: bool,
    stretch: Stretch,
    second: u32,
) -> Result<(), NoMemory>
    ensures others { OnOk result ((k : StretchValue) → same_stretch stretch k ≡ false
        → spell_of spells.new.entries k ≡ spell_of spells.old.entries k) }
    ensures places { OnOk result ((spell_of spells.new.entries stretch).places ≡
        (spell_of spells.old.entries stretch).places + (if one then 1 else 0)) }
    ensures history { OnOk result ((stood_at : ℕ → Bool)
        → IsHistory second (spell_of spells.old.entries stretch) stood_at
        → IsHistory second (spell_of spells.new.entries stretch) stood_at) }
    ensures refused { OnErr result (spells.new.entries ≡ spells.old.entries) }
    ensures last { (k : StretchValue) → stood_last second (spell_of spells.new.entries k)
        ≡ stood_last second (spell_of spells.old.entries k) }
{
    if one {
        let spell = with_place(spell_at(spells, stretch), second)?;
        spells.insert(stretch, spell)?;
    }
    Ok(())
}

/// An accident at one place of the stretch less, if there is one.
pub(crate) fn end_if(
    spells: &mut IndexMap<Stretch, Spell>,
    one: bool,
    stretch: Stretch,
    second: u32,
)
    ensures others { (k : StretchValue) → same_stretch stretch k ≡ false
        → spell_of spells.new.entries k ≡ spell_of spells.old.entries k }
    ensures places { (spell_of spells.new.entries stretch).places ≡ (spell_of spells.old.entries stretch).places -
        (if one then 1 else 0) }
    ensures history { (stood_at : ℕ → Bool) → IsHistory second (spell_of spells.old.entries stretch) stood_at
        → IsHistory second (spell_of spells.new.entries stretch) stood_at }
    ensures last { (k : StretchValue) → stood_last second (spell_of spells.new.entries k)
        ≡ stood_last second (spell_of spells.old.entries k) }
{
    if one {
        if let Some(spell) = spells.get_mut(&stretch) {
            let less = without_place(*spell, second);
            *spell = less;
        }
    }
}
