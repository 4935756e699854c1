//! What a method and a target ask for, by places in the target: nothing of it is borrowed.

ghost use Rattle.std.specs.Prelude.{◌≡◌, List, ℕ};
ghost use Rattle.bsp_routes.specs.declared.asking.Asking.{Asking};
ghost use Rattle.bsp_routes.specs.Calls.{Asks, asking_text};
ghost use Rattle.bsp_routes.specs.Matches.{IsFoundAt};
ghost use Rattle.bsp_routes.specs.Routed.{IsLocatedAt, IsRouteOf};

use crate::asking::Asking;
use crate::found::Found;
use crate::methods::Methods;
use crate::resource::Resource;

/// A call, by its resource and by how many bytes of the target its path values have.
#[derive(Clone, Copy)]
pub struct Located {
    pub(crate) resource: Resource,
    pub(crate) posts: bool,
    pub(crate) first: usize,
    pub(crate) second: usize,
}

impl Located {
    /// The resource with the values of its path, which the target is.
    fn found(self, target: &[u8]) -> Found<'_>
        requires { IsLocatedAt target.now self }
        ensures found { IsFoundAt target.now result }
        ensures resource { result.resource ≡ self.resource }
    {
        let rest = &target[self.resource.bytes_before()..];
        Found {
            resource: self.resource,
            first: &rest[..self.first],
            second: &target[target.len() - self.second..],
        }
    }
}

/// What a method and a target ask for.
#[derive(Clone, Copy)]
pub enum Route {
    /// The call whose path and method they are.
    Call(Located),
    /// No call of this method: the target is the path of calls with these methods.
    OtherMethod(Methods),
    /// The target is the path of no call.
    NoRoute,
}

impl Route {
    /// What is asked for, with the path values of the target. It is that of [`crate::Routes::ask`].
    pub fn asking<'t>(self, _method: &[u8], target: &'t [u8]) -> Asking<&'t [u8]>
        requires { IsRouteOf _method.now target.now self }
        ensures asked { Asks _method.now target.now (asking_text result) }
        ensures only { (other : Asking (List ℕ)) → Asks _method.now target.now other → asking_text result ≡ other }
    {
        match self {
            Route::Call(located) => Asking::Call(located.found(target).call(located.posts)),
            Route::OtherMethod(methods) => Asking::OtherMethod(methods),
            Route::NoRoute => Asking::NoRoute,
        }
    }
}
