//! Laws of what a request asks, each the contract of an empty function.
ghost use Rattle.serve_requests.specs.Laws.{IsOneHead, AreApart};
ghost use Rattle.serve_requests.specs.Rows.{FindRoutes};
ghost use Rattle.serve_requests.specs.Places.{PlacesHaveRoutes, RoutesHavePlaces, PlacesAreAscii};

/// At most one head stands first in some bytes, and then they are neither bad nor cut.
pub fn one_head_law()
    ensures { IsOneHead }
{}

/// A front is not both bad and cut, but where it ends in a target or has more than 64 fields.
pub fn apart_law()
    ensures { AreApart }
{}

/// Each path of a route's form finds that route.
pub fn routes_law()
    ensures { FindRoutes }
{}

/// A path that names a place finds its route, names it by that route, and is ASCII.
pub fn places_law()
    ensures found { PlacesHaveRoutes }
    ensures named { RoutesHavePlaces }
    ensures ascii { PlacesAreAscii }
{}
