//! The table of routes.

ghost use Rattle.std.specs.Prelude.{◌≡◌, ℕ, List, None, IfSome};
ghost use Rattle.bsp_routes.specs.declared.asking.Asking.{Asking};
ghost use Rattle.bsp_routes.specs.declared.resource.Resource.{Resource};
ghost use Rattle.bsp_routes.specs.Calls.{Asks, asking_text};
ghost use Rattle.bsp_routes.specs.Resources.{IsPathOf};
ghost use Rattle.bsp_routes.specs.Rows.{routes};
ghost use Rattle.bsp_routes.specs.Matches.{IsFoundAt};
ghost use Rattle.bsp_routes.specs.Routed.{IsRouteOf};

use crate::asking::Asking;
use crate::found::{Found, matched};
use crate::patterns::all_patterns;
use crate::resource::Resource;
use crate::route::Route;
use crate::target::is_clean;
use bsp_fields::NoRoom;
use matchit::Router;
use std::alloc::Global;
use std::marker::Model;

/// The routes of the office, ready to look targets up.
#[derive(Drop)]
pub struct Routes {
    router: Router<Resource>,
}

impl Model for Routes {
    ghost Value = { Unit {0} };

    ghost view = { λ _. tt };

    ghost invariant = { λ s. s.router ≡ routes };
}

impl Routes {
    /// All routes.
    ///
    /// # Errors
    ///
    /// `NoRoom` where an allocation was refused. That the patterns do not conflict, so that there is no
    /// other cause, is tested only.
    pub fn new(alloc: Global) -> Result<Routes, NoRoom> {
        Ok(Routes {
            router: all_patterns(alloc)?,
        })
    }

    /// What a method and a target ask for. A target with `?`, `%`, an empty path value or a byte above 0x7E,
    /// or that does not begin with `/`, is no route. No memory is taken.
    pub fn ask<'p>(&self, method: &[u8], target: &'p [u8]) -> Asking<&'p [u8]>
        ensures asked { Asks method.now target.now (asking_text result) }
        ensures only { (other : Asking (List ℕ)) → Asks method.now target.now other → asking_text result ≡ other }
    {
        self.find(method, target).asking(method, target)
    }

    /// What a method and a target ask for, as of [`Routes::ask`], by places in the target.
    pub fn find(&self, method: &[u8], target: &[u8]) -> Route
        ensures { IsRouteOf method.now target.now result }
    {
        let Some(found) = self.found_at(target) else {
            return Route::NoRoute;
        };
        let methods = found.resource.methods();
        if methods.contains(method) {
            Route::Call(found.located(method == b"POST".as_slice()))
        } else {
            Route::OtherMethod(methods)
        }
    }

    // The resource whose path the target is.
    fn found_at<'p>(&self, target: &'p [u8]) -> Option<Found<'p>>
        ensures found { IfSome result (IsFoundAt target.now) }
        ensures missing { result ≡ None → (resource : Resource) (a b : List ℕ) → IsPathOf resource a b target.now → ⊥ }
    {
        if !is_clean(target) {
            return None;
        }
        let Ok(path) = str::from_utf8(target) else {
            return None;
        };
        matched(&self.router, path)
    }
}
