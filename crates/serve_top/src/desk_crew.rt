// Crews whose desks loops share.
ghost use Rattle.std.specs.Prelude.{◌≡◌, ◌≤◌, []};
ghost use Rattle.road_time.specs.Fits.{IsLimits};

use day_plan::Plan;
use road_time::Limits;
use serve_desk::Routes;
use serve_loops::Host;

/// A crew whose desk loops in many threads may share. `out` are the numbers of the tickets whose jobs are out; `works`
/// is by which plan a desk works a day, and `bounds` within which limits. `W` and `V` are the writer and a reader of one board,
/// `NamedWriter` and `NamedReader`; `Q` is what each loop has of its own, `Seat`: as parameters they are such of which the
/// trait asks nothing.
/// Each such crew has a shared desk of its own, since a desk of some crew could not be shared: of a crew that is not
/// known, it is known in its own thread alone that its tickets may be let go.
pub trait DeskCrew<K, W, V, Q, R> {
    ghost use Rattle.std.specs.Prelude.{ℕ, List};
    ghost use Rattle.road_time.specs.declared.day.Limits.{Limits};
    ghost use Rattle.day_plan.specs.declared.work.Plan.{Plan};

    type Shared: Host<Q> + Send + Sync;

    ghost out: { Self → List ℕ };

    ghost works: { Self.Shared → Plan };

    ghost bounds: { Self.Shared → Limits };

    /// What a loop has of its own: this reader, and what the keeper is now.
    fn seat(keeper: &K, reader: V) -> Q;

    /// Makes a desk with this crew, and puts its keeper under one lock and the rest under another. All its sessions go
    /// by these routes.
    fn share(
        self,
        rt: R,
        keeper: K,
        writer: W,
        plan: Plan,
        limits: Limits,
        routes: Routes,
    ) -> Self::Shared
        requires idle { out self ≡ [] }
        requires some { 1 ≤ plan.width }
        requires few { plan.width ≤ 64 }
        requires within { IsLimits limits }
        ensures works { works result ≡ plan }
        ensures bounds { bounds result ≡ limits };

    /// Ends the desk and the board's writer, and gives the keeper back. It may wait for readers.
    fn end(shared: Self::Shared) -> K;
}
