//! The connections that are held.

use std::collections::BTreeMap;

/// A connection, and whether its peer sends no more.
#[derive(Drop)]
pub(crate) struct Held<C> {
    pub(crate) connection: C,
    pub(crate) ended: bool,
}

/// The connections that are held, by their numbers, and the number of the next.
#[derive(Drop)]
pub(crate) struct Table<C> {
    pub(crate) held: BTreeMap<u64, Held<C>>,
    pub(crate) next: u64,
}
