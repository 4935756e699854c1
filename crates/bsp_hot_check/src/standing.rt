//! The state of the records before a place, and the state with one more.

ghost use Rattle.std.specs.Prelude.{◌≡◌, ◌<◌, ◌-◌, ◌^◌, false};
ghost use Rattle.bsp_hot_records.specs.Sums.{AreSmall};
ghost use Rattle.bsp_hot_check.specs.Standings.{start, allowed, moved, counted, totals_at, IsSmall};

use crate::model::{HotTotals, OfficeSums, Place, Progress, Standing};
use bsp_hot_records::Sums;

impl Standing {
    /// The state before any record.
    pub fn start() -> Standing
        ensures { result ≡ start }
    {
        Standing {
            records: 0,
            place: Place::Start,
            heading: None,
            offices: 0,
            transactions: 0,
            file: Sums::NONE,
            agent: None,
            office: OfficeSums::NONE,
        }
    }

    /// Takes one more record, which brings them to that place.
    #[inline]
    pub(crate) fn move_to(&mut self, place: Place)
        requires { self.old.records < 2 ^ 63 }
        ensures { self.new ≡ moved self.old place }
    {
        self.records += 1;
        self.place = place;
    }

    /// Takes one more record, which brings them to that place, where it is allowed, and answers
    /// whether it is.
    #[inline]
    pub(crate) fn move_if(&mut self, may_come: bool, place: Place) -> bool
        requires { self.old.records < 2 ^ 63 }
        ensures next { allowed result self.new ≡ allowed may_come (moved self.old place) }
        ensures same { result ≡ false → self.new ≡ self.old }
    {
        if may_come {
            self.move_to(place);
        }
        may_come
    }

    /// Takes one more record of a document, with what it adds.
    #[inline]
    pub(crate) fn count(&mut self, progress: Progress, more: Sums)
        requires room { self.old.records < 2 ^ 63 }
        requires small { IsSmall self.old }
        requires more { AreSmall (2 ^ 63 - 1) more }
        ensures { self.new ≡ counted self.old progress more }
    {
        self.move_to(Place::InDocument(progress));
        self.file = self.file.plus(more);
        self.office.all = self.office.all.plus(more);
        self.office.codes.add(progress.code, more);
    }

    /// The totals of a file in this state.
    pub(crate) fn totals(self) -> HotTotals
        requires room { self.records < 2 ^ 63 }
        requires small { IsSmall self }
        ensures { result ≡ totals_at self }
    {
        HotTotals {
            records: self.records,
            documents: self.file.documents,
            net: self.file.net(),
        }
    }
}
