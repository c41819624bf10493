// The routes of the desk, by the router of matchit.
ghost use Rattle.std.specs.Prelude.{◌≡◌, Ok, option_map, IfOk, IfSome};
ghost use Rattle.matchit.specs.Seek.{first};
ghost use Rattle.matchit.specs.Router.{rename};
ghost use Rattle.serve_requests.specs.Rows.{desk_rows, key_of, key_at};
ghost use Rattle.serve_requests.specs.Paths.{path_place as place_of_path, IsPlace};
ghost use Rattle.serve_requests.specs.Places.{place_by as place_by_route};

use crate::paths::{
    answers_at, day_at, days_at, health_at, live_at, page_at, spent_at, total_at, vehicle_at,
};
use crate::place::DeskPlace;
use crate::route::Route;
use matchit::{InsertError, Router};
use road_time::NoMemory;
use std::alloc::Global;
use std::marker::Model;

/// The routes of the desk. They are made once and kept, and threads may share them. Contracts see the router's rows.
#[derive(Drop)]
pub struct Routes {
    router: Router<Route>,
}

impl Model for Routes {
    ghost use Rattle.std.specs.Prelude.{◌≡◌};
    ghost use Rattle.matchit.specs.Rows.{RowsOf};
    ghost use Rattle.matchit.specs.Router.{RouteOf, rename};
    ghost use Rattle.serve_requests.specs.declared.route.Route.{Route};
    ghost use Rattle.serve_requests.specs.Rows.{desk_rows, key_at};

    ghost Value = { RowsOf (RouteOf Route) };

    ghost view = { λ routes. routes.router };

    ghost invariant = { λ routes. rename key_at routes.router ≡ desk_rows };
}

/// The router of the desk.
fn desk_router(alloc: Global) -> Result<Router<Route>, InsertError>
    ensures { IfOk result (λ r. rename key_at r ≡ desk_rows) }
{
    let mut router = Router::new(alloc);
    router.insert("/days/{day}", Route::OfDay)?;
    router.insert("/live/{vid}", Route::OfLive)?;
    router.insert("/live", Route::OfTotal)?;
    router.insert("/spent/{day}/{xway}/{vid}", Route::OfSpent)?;
    router.insert("/days", Route::OfDays)?;
    router.insert("/vehicles/{vid}/{from}/{to}", Route::OfVehicle)?;
    router.insert("/answers/{day}", Route::OfAnswers)?;
    router.insert("/", Route::OfPage)?;
    router.insert("/health", Route::OfHealth)?;
    Ok(router)
}

/// The route that a path finds.
fn find_route(router: &Router<Route>, path: &str) -> Option<Route>
    requires { rename key_at router.now ≡ desk_rows }
    ensures { option_map key_of result ≡ first desk_rows path.now }
{
    match router.at(path) {
        Ok(found) => Some(*found.value),
        Err(_) => None,
    }
}

/// The place that a path of a route names.
fn place_by(route: Route, path: &[u8]) -> Option<DeskPlace>
    ensures place { result ≡ place_by_route route path.now }
    ensures within { IfSome result IsPlace }
{
    match route {
        Route::OfDay => day_at(path),
        Route::OfLive => live_at(path),
        Route::OfTotal => total_at(path),
        Route::OfSpent => spent_at(path),
        Route::OfVehicle => vehicle_at(path),
        Route::OfDays => days_at(path),
        Route::OfPage => page_at(path),
        Route::OfAnswers => answers_at(path),
        Route::OfHealth => health_at(path),
    }
}

/// The place that a path names, by the route that it finds.
fn place_in(router: &Router<Route>, path: &[u8]) -> Option<DeskPlace>
    requires { rename key_at router.now ≡ desk_rows }
    ensures place { result ≡ place_of_path path.now }
    ensures within { IfSome result IsPlace }
{
    let Ok(text) = str::from_utf8(path) else {
        return None;
    };
    match find_route(router, text) {
        Some(route) => place_by(route, path),
        None => None,
    }
}

impl Routes {
    /// The nine routes.
    pub fn new(alloc: Global) -> Result<Routes, NoMemory> {
        match desk_router(alloc) {
            Ok(router) => Ok(Routes { router }),
            Err(_) => Err(NoMemory),
        }
    }

    /// The place that a path names.
    pub fn place(&self, path: &[u8]) -> Option<DeskPlace>
        ensures place { result ≡ place_of_path path.now }
        ensures within { IfSome result IsPlace }
    {
        place_in(&self.router, path)
    }
}

/// Threads may share the routes, and hand them on.
pub fn routes_cross() {
    crosses::<Routes>();
}

fn crosses<T: Send + Sync>() {}
