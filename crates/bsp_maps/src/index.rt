//! Rows looked up by a place that each row has.

ghost use Rattle.std.specs.Prelude.{◌≡◌, IfOk, OnOk};
ghost use Rattle.std.specs.FinMap.{empty};
ghost use Rattle.std.specs.FinMap.{keys as in_map};
ghost use Rattle.std.specs.List.{find};
ghost use Rattle.std.specs.Ordering.{is_le};
ghost use Rattle.bsp_maps.specs.Indexes.{AreExact, IsAlone, IsLeast, IsMoved, keys_at, members, members_before, with_place, without_place};

use crate::{Logged, commit_present};
use std::alloc::{AllocError, Global};

/// The keys of rows, by the place that each row has.
#[derive(Drop)]
pub struct Index<P: Ord + Copy + Drop, K: Ord + Copy + Drop> {
    // A key that was taken away has no value: to put it back takes no memory.
    entries: Logged<(P, K), Option<()>>,
}

impl<P: Ord + Copy + Drop, K: Ord + Copy + Drop> Index<P, K> {
    /// No keys.
    pub fn new(alloc: Global) -> Self
        requires { AreExact P.cmp K.cmp }
        ensures members { members P.cmp K.cmp result ≡ empty }
        ensures before { members_before P.cmp K.cmp result ≡ empty }
    {
        Index {
            entries: Logged::new(alloc),
        }
    }

    /// Keeps what was written.
    pub fn commit(&mut self)
        requires { AreExact P.cmp K.cmp }
        ensures members { members P.cmp K.cmp self.new ≡ members P.cmp K.cmp self.old }
        ensures before { members_before P.cmp K.cmp self.new ≡ members P.cmp K.cmp self.old }
    {
        commit_present(&mut self.entries);
    }

    /// Takes back what was written since the last commit. It takes no memory.
    pub fn roll_back(&mut self)
        requires { AreExact P.cmp K.cmp }
        ensures members { members P.cmp K.cmp self.new ≡ members_before P.cmp K.cmp self.old }
        ensures before { members_before P.cmp K.cmp self.new ≡ members_before P.cmp K.cmp self.old }
    {
        self.entries.roll_back();
    }

    /// Takes a key from a place, if there is one.
    fn take(&mut self, key: K, from: Option<P>) -> Result<(), AllocError>
        requires { AreExact P.cmp K.cmp }
        ensures ok { OnOk result (members P.cmp K.cmp self.new ≡ without_place P.cmp K.cmp key from (members P.cmp K.cmp self.old)) }
        ensures before { members_before P.cmp K.cmp self.new ≡ members_before P.cmp K.cmp self.old }
    {
        match from {
            None => Ok(()),
            Some(place) => self.entries.put((place, key), None),
        }
    }

    /// Adds a key at a place, if there is one.
    fn add(&mut self, key: K, to: Option<P>) -> Result<(), AllocError>
        requires { AreExact P.cmp K.cmp }
        ensures ok { OnOk result (members P.cmp K.cmp self.new ≡ with_place P.cmp K.cmp key to (members P.cmp K.cmp self.old)) }
        ensures before { members_before P.cmp K.cmp self.new ≡ members_before P.cmp K.cmp self.old }
    {
        match to {
            None => Ok(()),
            Some(place) => self.entries.put((place, key), Some(())),
        }
    }

    /// Moves a key from the place where it is, or from none, to another, or to none. Where these are the same
    /// it writes nothing.
    ///
    /// # Errors
    ///
    /// Where an allocation was refused. What the last commit kept is remembered all the same.
    pub fn relocate(&mut self, key: K, from: Option<P>, to: Option<P>) -> Result<(), AllocError>
        requires { AreExact P.cmp K.cmp }
        ensures ok { OnOk result (IsAlone P.cmp K.cmp key from (members P.cmp K.cmp self.old) → IsMoved P.cmp K.cmp key to (members P.cmp K.cmp self.old) (members P.cmp K.cmp self.new)) }
        ensures before { members_before P.cmp K.cmp self.new ≡ members_before P.cmp K.cmp self.old }
    {
        if from.cmp(&to).is_eq() {
            return Ok(());
        }
        self.take(key, from)?;
        self.add(key, to)
    }

    /// The keys at a place, rising. `least` is a key that none is below. It reads the keys at the place, and
    /// those that were taken from it since the last commit.
    ///
    /// # Errors
    ///
    /// Where an allocation was refused.
    pub fn keys_at(&self, alloc: Global, place: P, least: K) -> Result<Vec<K>, AllocError>
        requires { IsLeast K.cmp least }
        ensures { IfOk result (λ found. found.items ≡ keys_at P.cmp K.cmp place (members P.cmp K.cmp self.now)) }
    {
        let mut found = Vec::new(alloc);
        for (entry, value) in self.entries.map().range((place, least)..) {
            if place.cmp(&entry.0).is_ne() {
                break;
            }
            if value.is_some() {
                found.push(entry.1)?;
            }
        }
        Ok(found)
    }

    /// The first place that is not below this one and has a key, and its least key; none if there is no such
    /// place. `least` is a key that none is below. It reads that entry, and those before it that were taken
    /// since the last commit.
    pub fn first_from(&self, place: P, least: K) -> Option<(P, K)>
        requires { IsLeast K.cmp least }
        ensures { result ≡ find (λ entry. is_le (P.cmp place entry.0)) (in_map (members P.cmp K.cmp self.now)) }
    {
        for (entry, value) in self.entries.map().range((place, least)..) {
            if let Some(()) = value {
                return Some(*entry);
            }
        }
        None
    }
}
