//! The result of a look-up: a call and the body that it has.

use crate::call::Call;
use crate::methods::Methods;

/// What a method and a target ask for, with path values of type `V`.
#[derive(Clone, Copy)]
pub enum Asking<V> {
    /// The call whose path and method they are.
    Call(Call<V>),
    /// No call of this method: the target is the path of calls with these methods.
    OtherMethod(Methods),
    /// The target is the path of no call.
    NoRoute,
}
