//! A RET file as it was read.

ghost use Rattle.std.specs.Prelude.{◌≡◌, ◌+◌, ◌<◌, ◌≤◌, List, ℕ, [], ◌∷◌, true, length, MatchOption, slice_index_or};
ghost use Rattle.std.specs.List.{list_all};
ghost use Rattle.bsp_fields.specs.Lines.{lines};
ghost use Rattle.bsp_fields.specs.Columns.{is_wide};
ghost use Rattle.bsp_ret_records.specs.Records.{sale_fits, trailer_fits, IsFit};
ghost use Rattle.bsp_ret.specs.Table.{total_paid};
ghost use Rattle.bsp_ret_records.specs.Values.{IsSale};
ghost use Rattle.bsp_ret.specs.Sales.{HasSale};
ghost use Rattle.bsp_ret.specs.Groups.{records_of, sale_alone, with_records, HasRecords};

use crate::fields::{GroupFields, HeaderFields, TrailerFields};
use crate::records::Records;
use bsp_fields::{Total, first_record};
use bsp_ret_records::{PaidSale, sale_values, told_records, told_sum};
use std::marker::Model;

/// The lines of a transaction, as they are in the text, and the sum of its forms in minor units. A
/// contract sees the list of its lines.
#[derive(Drop)]
pub struct Group<'a> {
    text: &'a [u8],
    paid: i64,
}

impl<'a> Model for Group<'a> {
    ghost use Rattle.std.specs.Prelude.{List, ℕ};
    ghost use Rattle.std.specs.Prelude.{◌≡◌};
    ghost use Rattle.bsp_fields.specs.Lines.{lines};
    ghost use Rattle.bsp_ret.specs.Table.{total_paid};

    ghost Value = { List (List ℕ) };

    ghost view = { λ group. lines group.text.now };

    ghost invariant = { λ group. group.paid ≡ total_paid (lines group.text.now) };
}

/// A RET file: its header, the groups of its transactions and its trailer, as slices of the text.
#[derive(Drop)]
pub struct RetFile<'a> {
    header: &'a [u8],
    groups: Vec<Group<'a>>,
    trailer: &'a [u8],
}

impl<'a> Model for RetFile<'a> {
    ghost use Rattle.bsp_ret.specs.Ret.{File, HasLines};

    ghost Value = { File };

    ghost view = { λ file. record { header = file.header.now; groups = file.groups.items; trailer = file.trailer.now } };

    ghost invariant = { λ file. HasLines (record { header = file.header.now; groups = file.groups.items; trailer = file.trailer.now }) };
}

impl<'a> Group<'a> {
    /// The group of these lines, whose forms have that sum.
    pub(crate) fn of(text: &'a [u8], paid: i64) -> Group<'a>
        requires { paid ≡ total_paid (lines text.now) }
        ensures { result ≡ lines text.now }
    {
        Group { text, paid }
    }

    /// The record 2 of the group, and the sum of its forms.
    fn sale(&self) -> PaidSale
        requires some { 0 < length self.now }
        requires wide { list_all is_wide self.now ≡ true }
        requires fits { (first : List ℕ) (more : List (List ℕ)) → self.now ≡ first ∷ more → IsFit sale_fits first }
        ensures sale { (first : List ℕ) (more : List (List ℕ)) → self.now ≡ first ∷ more → IsSale first result.sale }
        ensures paid { result.paid ≡ total_paid self.now }
    {
        let Some((line, _)) = first_record(self.text) else {
            unreachable!()
        };
        PaidSale {
            sale: sale_values(line),
            paid: self.paid,
        }
    }

    /// The records of the group.
    fn records(&self) -> Records<'a>
        requires some { 0 < length self.now }
        requires wide { list_all is_wide self.now ≡ true }
        ensures { (sale : List ℕ) (more : List (List ℕ)) → self.now ≡ sale ∷ more → records_of result ≡ with_records (sale_alone sale) more }
    {
        Records::of(self.text)
    }
}

impl<'a> RetFile<'a> {
    ghost use Rattle.bsp_ret.specs.Ret.{HasLines, flatten, file_lines};
    ghost use Rattle.bsp_ret.specs.Table.{total_paid};
    ghost use Rattle.bsp_ret.specs.Slices.{IsHeaderOf, IsTrailerOf, HasFields};

    /// The file of these parts.
    pub(crate) fn of(header: &'a [u8], groups: Vec<Group<'a>>, trailer: &'a [u8]) -> RetFile<'a>
        requires { HasLines (record { header = header.now; groups = groups.items; trailer = trailer.now }) }
        ensures { result ≡ record { header = header.now; groups = groups.entry.items; trailer = trailer.now } }
    {
        RetFile {
            header,
            groups,
            trailer,
        }
    }

    /// Record 1.
    pub fn header_line(&self) -> &'a [u8]
        ensures value { result.now ≡ self.now.header }
        ensures stands { HasLines self.now }
    {
        self.header
    }

    /// Record Z.
    pub fn trailer_line(&self) -> &'a [u8]
        ensures value { result.now ≡ self.now.trailer }
        ensures fits { IsFit trailer_fits result.now }
        ensures stands { HasLines self.now }
    {
        self.trailer
    }

    /// The records of a transaction, counted from 0, as slices of the text; none past the last.
    pub(crate) fn records(&self, index: usize) -> Option<Records<'a>>
        ensures { MatchOption result (length self.now.groups ≤ index) (λ records. HasRecords (index + 1) (slice_index_or self.now.groups index []) (records_of records)) }
    {
        match self.groups.get(index) {
            Some(group) => Some(group.records()),
            None => None,
        }
    }

    /// The record 2 of a transaction, counted from 0, and what it pays; none past the last.
    pub fn sale(&self, index: usize) -> Option<PaidSale>
        ensures { MatchOption result (length self.now.groups ≤ index) (λ sale. HasSale (index + 1) (slice_index_or self.now.groups index []) sale) }
    {
        match self.groups.get(index) {
            Some(group) => Some(group.sale()),
            None => None,
        }
    }

    /// The fields of record 1, as slices of the text.
    pub fn header(&self) -> HeaderFields<'a>
        ensures { IsHeaderOf self.now.header result }
    {
        HeaderFields::of(self.header)
    }

    /// The fields of the records of a transaction, counted from 0, as slices of the text; none past
    /// the last.
    pub fn fields(&self, index: usize) -> Option<GroupFields<'a>>
        ensures { MatchOption result (length self.now.groups ≤ index) (λ fields. HasFields (index + 1) (slice_index_or self.now.groups index []) fields) }
    {
        match self.records(index) {
            Some(records) => Some(GroupFields::of(records)),
            None => None,
        }
    }

    /// The fields of record Z, as slices of the text.
    pub fn trailer(&self) -> TrailerFields<'a>
        ensures { IsTrailerOf self.now.trailer result }
    {
        TrailerFields::of(self.trailer_line())
    }

    /// The number of transactions.
    pub fn transactions(&self) -> usize
        ensures { result ≡ length self.now.groups }
    {
        self.groups.len()
    }

    /// The number of records, with header and trailer.
    pub fn record_count(&self) -> usize
        ensures { result ≡ length (file_lines self.now) }
    {
        told_records(self.trailer_line())
    }

    /// The sum of all forms of payment, in minor units.
    pub fn sum(&self) -> Total
        ensures { result ≡ total_paid (flatten self.now.groups) }
    {
        told_sum(self.trailer_line())
    }
}
