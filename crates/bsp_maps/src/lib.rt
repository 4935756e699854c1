//! Maps in memory whose changes can be taken back, look-ups in them, and tests over maps and ranges.
//!
//! A [`Logged`] map remembers what was at each key that it wrote: [`Logged::commit`] forgets that, and
//! [`Logged::roll_back`] puts it back without memory. [`values_before`] gives it as a map. Of a map, [`chosen`] gives the values of a group of keys that
//! pass a test, [`picked`] those at some keys. [`all_hold`], [`are_within`] and [`are_disjoint`] are tests that an
//! audit of maps needs.
//!
//! An [`Index`] has the keys of rows by the place that each row has, such as its period. It moves a key from the
//! place that its row had to the one that it has, and gives the keys at a place, or the first key from a place on,
//! without reading others. [`Counts`] keeps how many rows have each place.
#![tactic(auto)]

mod counts;
mod earlier;
mod index;
mod logged;
mod lookups;
mod picks;
mod place_counts;
mod present;
mod rules;
mod spans;
mod windows;

pub use counts::are_within;
pub use earlier::values_before;
pub use index::Index;
pub use logged::{Logged, Old};
pub use picks::picked;
pub use place_counts::Counts;
pub use present::{commit_present, present_entries};
pub use rules::{Every, Rule, Test, all_hold, any_holds};
pub use spans::{Span, are_disjoint};
pub use windows::{Window, chosen, has_any, window_entries};
