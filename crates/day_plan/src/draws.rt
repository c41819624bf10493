// Draws from a generator that a number makes: traffic and the turns of an import are drawn so.

ghost use Rattle.std.specs.Prelude.{◌≡◌, ◌<◌};
ghost use Rattle.day_plan.specs.Draws.{seeded, drawn};

use rand_core::SeedableRng;
use rand_core::utils::NextWord;
use rand_pcg::Lcg64Xsh32;

/// The generator of a seed.
#[tactic(auto, unfolding(crate::specs::Draws::seeded))]
pub fn seed(number: u64) -> Lcg64Xsh32
    ensures { result ≡ seeded number }
{
    Lcg64Xsh32::seed_from_u64(number)
}

/// A draw below `n`.
#[tactic(auto, unfolding(crate::specs::Draws::drawn))]
pub fn draw(rng: &mut Lcg64Xsh32, n: u32) -> u32
    requires { 0 < n }
    ensures drawn { (result ≡ (drawn n rng.old).0) × (rng.new ≡ (drawn n rng.old).1) }
    ensures below { result < n }
{
    rng.next_word() % n
}

/// A place below `n`, as a draw is one.
#[tactic(auto, unfolding(crate::specs::Draws::drawn))]
pub fn draw_place(rng: &mut Lcg64Xsh32, n: usize) -> usize
    requires { 0 < n }
    ensures drawn { (result ≡ (drawn n rng.old).0) × (rng.new ≡ (drawn n rng.old).1) }
    ensures below { result < n }
{
    (rng.next_word() as usize) % n
}
