// Where the workers' carriages are.
ghost use Rattle.std.specs.Prelude.{◌≡◌, ◌<◌, ℕ, Some, None, IfOk, vec_len, slice_get, slice_set};
ghost use Rattle.day_floor.specs.Shares.{idle};
ghost use Rattle.day_floor.specs.Floors.{HomeAt};

use road_time::{NoMemory, Tariffs};
use std::alloc::Global;
use ways_expressway::Carriage;

/// A new carriage for each worker, each at home.
pub(crate) fn make_homes(
    alloc: Global,
    width: u8,
    tariffs: &Tariffs,
) -> Result<Vec<Option<Carriage>>, NoMemory>
    ensures len { IfOk result (λ homes. vec_len homes ≡ width) }
    ensures idle { IfOk result (λ homes. (w : ℕ) → HomeAt tariffs.now homes.items w idle) }
{
    let mut homes = Vec::with_capacity(alloc, usize::from(width))?;
    for _ in 0..width {
        let carriage = Carriage::new(alloc, tariffs)?;
        homes.push(Some(carriage))?;
    }
    Ok(homes)
}

/// Takes a worker's carriage out, if it is at home.
pub(crate) fn take_home(homes: &mut Vec<Option<Carriage>>, worker: u8) -> Option<Carriage>
    requires { worker < vec_len homes.old }
    ensures len { vec_len homes.new ≡ vec_len homes.old }
    ensures taken { slice_get homes.old.items worker ≡ Some result }
    ensures left { homes.new.items ≡ slice_set homes.old.items worker None }
{
    homes[usize::from(worker)].take()
}

/// Puts a worker's carriage back.
pub(crate) fn bring_home(homes: &mut Vec<Option<Carriage>>, worker: u8, carriage: Carriage)
    requires { worker < vec_len homes.old }
    ensures len { vec_len homes.new ≡ vec_len homes.old }
    ensures brought { homes.new.items ≡ slice_set homes.old.items worker (Some carriage) }
{
    homes[usize::from(worker)] = Some(carriage);
}
