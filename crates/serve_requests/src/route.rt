// The routes' names.

/// What the router keeps for a path's form.
#[derive(Clone, Copy, Debug, PartialEq, Eq)]
pub enum Route {
    /// `/days/{day}`
    OfDay,
    /// `/live/{vid}`
    OfLive,
    /// `/live`
    OfTotal,
    /// `/spent/{day}/{xway}/{vid}`
    OfSpent,
    /// `/vehicles/{vid}/{from}/{to}`
    OfVehicle,
    /// `/days`
    OfDays,
    /// `/`
    OfPage,
    /// `/answers/{day}`
    OfAnswers,
    /// `/health`
    OfHealth,
}
