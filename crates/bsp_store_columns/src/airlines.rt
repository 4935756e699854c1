//! An airline that is published, registered, or both, and its place in a plan.

ghost use Rattle.std.specs.Prelude.{◌<◌, ◌^◌, ◌↔◌, ◌≡◌, IsTrue};
ghost use Rattle.std.specs.Option.{ForSome};
ghost use Rattle.bsp_store_columns.specs.Airlines.{HasStoredPlace, entry_of, place_of};

use bsp_rows::{AirlineCode, Token};

/// What the table of airlines has at a code.
#[derive(Clone, Copy)]
pub struct AirlineEntry {
    /// Its place in the order of publication, counted from 1; none where it is not published.
    pub place: Option<usize>,
    /// Its token; none where it is not registered.
    pub token: Option<Token>,
}

impl AirlineEntry {
    /// The entry with this place and this token; none where there is neither.
    pub fn of(place: Option<usize>, token: Option<Token>) -> Option<AirlineEntry>
        ensures { result ≡ entry_of place token }
    {
        match (place, token) {
            (None, None) => None,
            (place, token) => Some(AirlineEntry { place, token }),
        }
    }

    /// Whether its place, if it has one, fits the integers of a store.
    pub fn has_stored_place(&self) -> bool
        ensures { IsTrue result ↔ HasStoredPlace self.now }
    {
        match self.place {
            Some(place) => (place as u64) < 1 << 63,
            None => true,
        }
    }
}

/// The place of an airline among those that are published, counted from 1.
pub fn place_of(airline: AirlineCode, published: &[AirlineCode]) -> Option<usize>
    ensures value { result ≡ place_of airline published.now }
    ensures stored { ForSome result (λ place. place < 2 ^ 63) }
{
    let mut place = None;
    for at in 0..published.len() {
        if airline == published[at] {
            place = Some(at + 1);
        }
    }
    place
}
