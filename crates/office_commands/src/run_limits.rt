// The limits under which the run of a day is worked.
ghost use Rattle.std.specs.Prelude.{ℕ, ◌≡◌, List};
ghost use Rattle.road_time.specs.Fits.{IsLimits};
ghost use Rattle.road_time.specs.Reads.{reads};
ghost use Rattle.office_words.specs.Meaning.{IsRun};
ghost use Rattle.office_commands.specs.Starts.{backlog_of};

use office_words::DayRun;
use road_time::Limits;

/// The limits with a backlog of at most what the run's words name. What is read under them is the same.
pub(crate) fn run_limits(run: &DayRun, limits: &Limits) -> Limits
    requires range { IsRun run.now }
    requires within { IsLimits limits.now }
    ensures within { IsLimits result }
    ensures backlog { result.backlog ≡ backlog_of run.now limits.now }
    ensures lines { result.lines ≡ limits.now.lines }
    ensures same { (bytes : List ℕ) (late : ℕ) → reads bytes result late ≡ reads bytes limits.now late }
{
    Limits {
        backlog: limits.backlog.min(run.backlog),
        ..*limits
    }
}
