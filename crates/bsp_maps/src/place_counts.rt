//! How many rows have each place.

ghost use Rattle.std.specs.Prelude.{◌↔◌, ◌≡◌, false, IfOk, IsTrue, OnOk, Some};
ghost use Rattle.std.specs.FinMap.{IsAntisymmetric, empty};
ghost use Rattle.bsp_maps.specs.Counts.{HasCounted, IsRecounted, count_at, counted, counted_before, with_one, without_one};

use crate::Logged;
use std::alloc::{AllocError, Global};

/// How many rows have each place.
#[derive(Drop)]
pub struct Counts<P: Ord + Copy + Drop> {
    counts: Logged<P, u64>,
}

impl<P: Ord + Copy + Drop> Counts<P> {
    /// No rows.
    pub fn new(alloc: Global) -> Self
        ensures counted { counted P.cmp result ≡ empty }
        ensures before { counted_before P.cmp result ≡ empty }
    {
        Counts {
            counts: Logged::new(alloc),
        }
    }

    /// Keeps what was written.
    pub fn commit(&mut self)
        ensures counted { counted P.cmp self.new ≡ counted P.cmp self.old }
        ensures before { counted_before P.cmp self.new ≡ counted P.cmp self.old }
    {
        self.counts.commit();
    }

    /// Takes back what was written since the last commit. It takes no memory.
    pub fn roll_back(&mut self)
        requires { IsAntisymmetric P.cmp }
        ensures counted { counted P.cmp self.new ≡ counted_before P.cmp self.old }
        ensures before { counted_before P.cmp self.new ≡ counted_before P.cmp self.old }
    {
        self.counts.roll_back();
    }

    /// How many rows have a place. It reads one entry.
    pub fn at(&self, place: P) -> u64
        ensures { result ≡ count_at (counted P.cmp self.now) place }
    {
        match self.counts.get(place) {
            None => 0,
            Some(count) => count,
        }
    }

    /// Counts one row less at a place, if there is one.
    fn take(&mut self, from: Option<P>) -> Result<(), AllocError>
        requires { IsAntisymmetric P.cmp }
        ensures ok { OnOk result (counted P.cmp self.new ≡ without_one from (counted P.cmp self.old)) }
        ensures before { counted_before P.cmp self.new ≡ counted_before P.cmp self.old }
    {
        match from {
            None => Ok(()),
            Some(place) => {
                let count = self.at(place);
                self.counts.put(place, count.saturating_sub(1))
            }
        }
    }

    /// Counts one row more at a place.
    fn add(&mut self, to: P) -> Result<(), AllocError>
        requires { IsAntisymmetric P.cmp }
        ensures ok { OnOk result (counted P.cmp self.new ≡ with_one to (counted P.cmp self.old)) }
        ensures before { counted_before P.cmp self.new ≡ counted_before P.cmp self.old }
    {
        if self.counts.count_up(to)? {
            return Ok(());
        }
        self.counts.put(to, 1)
    }

    /// Counts a row at a place, if none is counted there. It answers whether the row was counted, and looks the place up
    /// once where it was.
    ///
    /// # Errors
    ///
    /// Where an allocation was refused. What the last commit kept is remembered all the same.
    pub fn count_first(&mut self, place: P) -> Result<bool, AllocError>
        requires { IsAntisymmetric P.cmp }
        ensures none { IfOk result (λ first. IsTrue first ↔ (count_at (counted P.cmp self.old) place ≡ 0)) }
        ensures first { IfOk result (λ first. IsTrue first → counted P.cmp self.new ≡ with_one place (counted P.cmp self.old)) }
        ensures kept { IfOk result (λ first. first ≡ false → counted P.cmp self.new ≡ counted P.cmp self.old) }
        ensures before { counted_before P.cmp self.new ≡ counted_before P.cmp self.old }
    {
        match self.counts.replace(place, 1)? {
            None | Some(0) => Ok(true),
            Some(count) => {
                self.counts.put(place, count)?;
                Ok(false)
            }
        }
    }

    /// Counts a row at a place, and no more at the one where it was, if it was at one. Where these are the same
    /// it writes nothing.
    ///
    /// # Errors
    ///
    /// Where an allocation was refused, and where there were more rows than any memory has. What the last commit
    /// kept is remembered all the same.
    pub fn relocate(&mut self, from: Option<P>, to: P) -> Result<(), AllocError>
        requires { IsAntisymmetric P.cmp }
        ensures ok { OnOk result (HasCounted P.cmp from (counted P.cmp self.old) → IsRecounted P.cmp from to (counted P.cmp self.old) (counted P.cmp self.new)) }
        ensures before { counted_before P.cmp self.new ≡ counted_before P.cmp self.old }
    {
        if from.cmp(&Some(to)).is_eq() {
            return Ok(());
        }
        self.take(from)?;
        self.add(to)
    }
}
