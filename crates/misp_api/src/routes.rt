//! The router of all paths.

ghost use Rattle.std.specs.Prelude.{◌≡◌, ◌≤◌, ℕ, List, IfOk, filter, length};
ghost use Rattle.misp_api.specs.Path.{kind_of, paths};
ghost use Rattle.misp_api.specs.Pattern.{fits_pattern};
ghost use Rattle.misp_api.specs.Route.{path_route, route_of};
ghost use Rattle.misp_api.specs.Router.{rows_of, texts_of};

use crate::path_kind::{PATHS, PathKind};
use crate::route::{Route, at_method, method_of, path_of, query_of, route_as, with_query};
use matchit::{InsertError, Router};
use misp_ids::{NoMemory, RuleName};
use std::alloc::Global;
use std::marker::Model;

fn router_of(alloc: Global, patterns: &[(&str, PathKind)]) -> Result<Router<PathKind>, InsertError>
    ensures { IfOk result (λ router. router ≡ rows_of (texts_of patterns.now)) }
{
    let mut router = Router::new(alloc);
    for (text, kind) in patterns {
        router.insert(text, *kind)?;
    }
    Ok(router)
}

/// The patterns of all paths, for finding what a path is for.
#[derive(Drop)]
pub struct Routes {
    router: Router<PathKind>,
}

impl Model for Routes {
    ghost use Rattle.std.specs.Prelude.{◌≡◌};
    ghost use Rattle.misp_api.specs.Router.{rows};

    ghost Value = { Unit {0} };

    ghost view = { λ _. tt };

    // The router has exactly the patterns of the table.
    ghost invariant = { λ routes. routes.router ≡ rows };
}

impl Routes {
    /// Made once, and lent to each request.
    pub fn new(alloc: Global) -> Result<Routes, NoMemory> {
        match router_of(alloc, &PATHS) {
            Ok(router) => Ok(Routes { router }),
            Err(_) => Err(NoMemory),
        }
    }

    fn kind_of(&self, path: &str) -> Option<PathKind>
        ensures { result ≡ kind_of path.now }
    {
        match self.router.at(path) {
            Ok(found) => Some(*found.value),
            Err(_) => None,
        }
    }

    #[tactic(auto, unfolding(crate::specs::Route::path_route))]
    fn path_route(&self, path: &str) -> Option<Route>
        ensures { result ≡ path_route path.now }
    {
        match self.kind_of(path) {
            Some(kind) => route_as(path, kind),
            None => None,
        }
    }

    /// The route of a method and a target, or the rule by which they are refused.
    #[tactic(auto, unfolding(crate::specs::Route::route_of))]
    pub fn route(&self, method: &str, target: &str) -> Result<Route, RuleName>
        ensures { result ≡ route_of method.now target.now }
    {
        match self.path_route(path_of(target)) {
            Some(route) => {
                let route = with_query(query_of(target), at_method(method, route));
                if method == method_of(&route) {
                    Ok(route)
                } else {
                    Err(RuleName::NoMethod)
                }
            }
            None => Err(RuleName::NoRoute),
        }
    }
}

/// A path is for one thing at most, so the order of the patterns does not matter.
pub fn at_most_one_pattern_fits()
    ensures { (path : List ℕ) → length (filter (λ p. fits_pattern p.0 path) paths) ≤ 1 }
{}
