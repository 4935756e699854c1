//! Notes of where the records of a text are.

ghost use Rattle.std.specs.Prelude.{◌≡◌, ◌≤◌, ◌-◌, ◌+◌, ◌*◌, ◌^◌, List, ℕ, Ok, false, length, take, drop, unsigned_abs, OnOk, IfOk, IfErr};
ghost use Rattle.bsp_fields.specs.Lines.{lines, BeginsWithLine};
ghost use Rattle.bsp_ret.specs.Said.{record_in};
ghost use Rattle.bsp_ret.specs.Table.{kind, has_ended};
ghost use Rattle.bsp_ret.specs.Reading.{add, with_group, read_all, no_memory};
ghost use Rattle.bsp_ret.specs.Payments.{paid_with};
ghost use Rattle.bsp_ret.specs.Notes.{no_notes, lines_at, groups_at, IsPlace, ArePlaces, HasPlaces, IsFileNoted, draft_by};

use crate::file::{Group, RetFile};
use crate::model::{FaultCode, Record, RetFault, Standing};
use std::alloc::{AllocError, Global};

impl From<AllocError> for RetFault {
    ghost from_gives = { λ _ e. e ≡ no_memory };

    fn from(_: AllocError) -> RetFault {
        RetFault {
            code: FaultCode::F10,
            at: 0,
        }
    }
}

/// Where some bytes of a text are: the first of them, and the one behind the last.
#[derive(Clone, Copy)]
pub(crate) struct Span {
    pub(crate) from: usize,
    pub(crate) to: usize,
}

/// Where the lines of a transaction are in a text, and the sum of its forms in minor units.
#[derive(Clone, Copy)]
pub(crate) struct Place {
    pub(crate) from: usize,
    pub(crate) to: usize,
    pub(crate) paid: i64,
}

/// What is noted of a text, but for the transactions before the last one.
#[derive(Clone, Copy)]
pub(crate) struct Notes {
    /// How many of its bytes are judged.
    pub(crate) judged: usize,
    /// The state of the records in them.
    pub(crate) at: Standing,
    pub(crate) header: Span,
    /// The last transaction, as far as it is judged.
    pub(crate) latest: Place,
    pub(crate) trailer: Span,
}

/// Adds a transaction that has ended, if it has any bytes.
fn close(closed: &mut Vec<Place>, place: Place) -> Result<(), AllocError>
    ensures groups { (bytes : List ℕ) → (n : ℕ) → n ≤ length bytes → IsPlace bytes n place
        → OnOk result (groups_at bytes closed.new.items ≡ with_group (groups_at bytes closed.old.items) (lines_at bytes place)) }
    ensures places { (bytes : List ℕ) → (n : ℕ) → IsPlace bytes n place → ArePlaces bytes n closed.old.items → OnOk result (ArePlaces bytes n closed.new.items) }
    ensures kept { take (length closed.old.items) closed.new.items ≡ closed.old.items }
{
    if place.from < place.to {
        closed.push(place)?;
    }
    Ok(())
}

/// The groups of these transactions and of the last one, if it has any bytes.
fn groups<'a>(
    alloc: Global,
    bytes: &'a [u8],
    closed: &[Place],
    latest: Place,
) -> Result<Vec<Group<'a>>, RetFault>
    requires closed { ArePlaces bytes.now (length bytes.now) closed.now }
    requires latest { IsPlace bytes.now (length bytes.now) latest }
    ensures ok { IfOk result (λ groups. groups.items ≡ with_group (groups_at bytes.now closed.now) (lines_at bytes.now latest)) }
    ensures err { IfErr result (λ fault. fault ≡ no_memory) }
{
    let mut groups = Vec::with_capacity(alloc, closed.len() + 1)?;
    let mut places = closed;
    while let Some((place, after)) = places.split_first() {
        groups.push_reserved(Group::of(&bytes[place.from..place.to], place.paid));
        places = after;
    }
    if latest.from < latest.to {
        groups.push_reserved(Group::of(&bytes[latest.from..latest.to], latest.paid));
    }
    Ok(groups)
}

/// The file that is noted.
pub(crate) fn noted_file<'a>(
    alloc: Global,
    notes: Notes,
    closed: &[Place],
    bytes: &'a [u8],
) -> Result<RetFile<'a>, RetFault>
    requires { IsFileNoted notes closed.now bytes.now }
    ensures file { IfOk result (λ file. read_all (lines bytes.now) ≡ Ok file) }
    ensures fault { IfErr result (λ fault. fault ≡ no_memory) }
{
    let Notes {
        header,
        latest,
        trailer,
        ..
    } = notes;
    let groups = groups(alloc, bytes, closed, latest)?;
    Ok(RetFile::of(
        &bytes[header.from..header.to],
        groups,
        &bytes[trailer.from..trailer.to],
    ))
}

impl Notes {
    /// Notes of a text that has not begun.
    pub(crate) fn new() -> Notes
        ensures { result ≡ no_notes }
    {
        Notes {
            judged: 0,
            at: Standing::start(),
            header: Span { from: 0, to: 0 },
            latest: Place {
                from: 0,
                to: 0,
                paid: 0,
            },
            trailer: Span { from: 0, to: 0 },
        }
    }

    /// Notes the next line of `bytes`, which says `next`, and behind whose end `after` follows.
    #[inline(always)]
    pub(crate) fn add(
        &mut self,
        closed: &mut Vec<Place>,
        next: &Record,
        bytes: &[u8],
        line: &[u8],
        after: &[u8],
    ) -> Result<(), AllocError>
        requires says { next.now ≡ record_in line.now }
        requires begins { BeginsWithLine (drop self.old.judged bytes.now) line.now after.now }
        requires places { HasPlaces false self.old closed.old.items bytes.now }
        requires small { unsigned_abs self.old.latest.paid ≤ 3 * 10 ^ 11 }
        ensures at { self.new.at ≡ self.old.at }
        ensures judged { self.new.judged ≡ length bytes.now - length after.now }
        ensures draft { OnOk result (draft_by (has_ended (kind next.now)) self.new closed.new.items bytes.now ≡ add (draft_by false self.old closed.old.items bytes.now) line.now) }
        ensures places { OnOk result (HasPlaces (has_ended (kind next.now)) self.new closed.new.items bytes.now) }
        ensures sum { OnOk result (has_ended (kind next.now) ≡ false → self.new.latest.paid ≡ paid_with self.old.latest.paid next.now) }
        ensures bound { OnOk result (unsigned_abs self.new.latest.paid ≤ unsigned_abs self.old.latest.paid + 99_999_999_999) }
        ensures kept { take (length closed.old.items) closed.new.items ≡ closed.old.items }
    {
        let from = self.judged;
        let to = bytes.len() - after.len();
        self.judged = to;
        match next {
            Record::Header(_) => {
                self.header = Span {
                    from,
                    to: from + line.len(),
                };
                self.latest = Place {
                    from: to,
                    to,
                    paid: 0,
                };
            }
            Record::Sale(_) => {
                close(closed, self.latest)?;
                self.latest = Place { from, to, paid: 0 };
            }
            Record::Form(_, amount) => {
                self.latest.to = to;
                self.latest.paid += amount.get();
            }
            Record::Related(_) => self.latest.to = to,
            Record::Amounts => self.latest.to = to,
            Record::Trailer => {
                self.trailer = Span {
                    from,
                    to: from + line.len(),
                };
            }
        }
        Ok(())
    }
}
