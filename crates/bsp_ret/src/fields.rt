//! The fields of records, as slices at their columns.

ghost use Rattle.std.specs.Prelude.{◌≡◌, length};
ghost use Rattle.bsp_ret_records.specs.Records.{IsFit, sale_fits, related_fits, amounts_fit, form_fits, trailer_fits};
ghost use Rattle.bsp_ret.specs.Slices.{IsHeaderOf, IsDocumentOf, IsSaleOf, IsRelatedOf, IsTaxOf, AreAmountsOf, IsFormOf, IsTrailerOf, AreFieldsOf};
ghost use Rattle.bsp_ret.specs.Groups.{records_of, AreFit};

use crate::records::Records;
use bsp_fields::tax_place;
use bsp_ret_records::{record_count, transaction_count, transaction_number};

/// The fields of record 1, the header.
#[derive(Clone, Copy)]
pub struct HeaderFields<'a> {
    /// Columns 2 to 5, the system identifier: letters `A` to `Z` and digits.
    pub system_id: &'a [u8],
    /// Columns 6 to 11, a day as YYMMDD.
    pub date: &'a [u8],
    /// Columns 12 to 15, hours and minutes as HHMM.
    pub time: &'a [u8],
    /// Columns 16 and 17, letters `A` to `Z`.
    pub country: &'a [u8],
    /// Columns 18 to 23, digits.
    pub file_number: &'a [u8],
}

/// The fields of a document in fourteen digits: columns 20 to 33 of record 2, and 8 to 21 of
/// record 3.
#[derive(Clone, Copy)]
pub struct DocumentFields<'a> {
    /// Three digits.
    pub airline: &'a [u8],
    /// Ten digits.
    pub number: &'a [u8],
    /// One digit, right or wrong.
    pub check_digit: &'a [u8],
}

/// The fields of record 2, basic sale data.
#[derive(Clone, Copy)]
pub struct SaleFields<'a> {
    /// Columns 2 to 7, the number of the transaction, which its other records repeat.
    pub number: &'a [u8],
    /// Columns 8 to 11, `TKTT`, `RFND` or `CANX`.
    pub code: &'a [u8],
    /// Columns 12 to 19, eight digits.
    pub agent: &'a [u8],
    /// Columns 20 to 33.
    pub document: DocumentFields<'a>,
    /// Columns 34 to 39, the day of issue as YYMMDD.
    pub issued: &'a [u8],
    /// Columns 40 to 88, the passenger's name.
    pub passenger: &'a [u8],
}

/// The fields of a tax place of record 5, all spaces where it is unused.
#[derive(Clone, Copy)]
pub struct TaxFields<'a> {
    /// The first two characters of the place.
    pub code: &'a [u8],
    /// The other eleven, an amount.
    pub amount: &'a [u8],
}

/// The fields of record 5, amounts.
#[derive(Clone, Copy)]
pub struct AmountsFields<'a> {
    /// Columns 8 to 18, an amount.
    pub fare: &'a [u8],
    /// Columns 19 to 96, six places of 13 columns.
    pub taxes: [TaxFields<'a>; 6],
    /// Columns 97 to 101, five digits, in hundredths of a percent.
    pub rate: &'a [u8],
    /// Columns 102 to 112, an amount.
    pub commission: &'a [u8],
}

/// The fields of record 8, a form of payment.
#[derive(Clone, Copy)]
pub struct FormFields<'a> {
    /// Columns 10 to 20, an amount.
    pub amount: &'a [u8],
    /// Columns 21 and 22, the card vendor with CC, else spaces.
    pub vendor: &'a [u8],
}

/// The fields of the records of a transaction, where it has them.
#[derive(Clone, Copy)]
pub struct GroupFields<'a> {
    /// Record 2.
    pub sale: SaleFields<'a>,
    /// Record 3.
    pub related: Option<DocumentFields<'a>>,
    /// A second record 3.
    pub second: Option<DocumentFields<'a>>,
    /// Record 5.
    pub amounts: Option<AmountsFields<'a>>,
    /// The record 8 with CA.
    pub cash: Option<FormFields<'a>>,
    /// The record 8 with CC.
    pub credit: Option<FormFields<'a>>,
    /// The record 8 with EX.
    pub exchange: Option<FormFields<'a>>,
}

/// The fields of record Z, the trailer.
#[derive(Clone, Copy)]
pub struct TrailerFields<'a> {
    /// Columns 2 to 8, the number of records with header and trailer.
    pub records: &'a [u8],
    /// Columns 9 to 15, the number of transactions.
    pub transactions: &'a [u8],
    /// Columns 16 to 30, the sum of all forms of payment, a total.
    pub sum: &'a [u8],
}

impl<'a> HeaderFields<'a> {
    pub(crate) fn of(line: &'a [u8]) -> HeaderFields<'a>
        requires { length line.now ≡ 136 }
        ensures { IsHeaderOf line.now result }
    {
        HeaderFields {
            system_id: &line[1..5],
            date: &line[5..11],
            time: &line[11..15],
            country: &line[15..17],
            file_number: &line[17..23],
        }
    }
}

impl<'a> DocumentFields<'a> {
    fn of(text: &'a [u8]) -> DocumentFields<'a>
        requires { length text.now ≡ 14 }
        ensures { IsDocumentOf text.now result }
    {
        DocumentFields {
            airline: &text[..3],
            number: &text[3..13],
            check_digit: &text[13..14],
        }
    }

    /// The fields of record 3.
    fn of_related(line: &'a [u8]) -> DocumentFields<'a>
        requires { IsFit related_fits line.now }
        ensures { IsRelatedOf line.now result }
    {
        DocumentFields::of(&line[7..21])
    }
}

impl<'a> SaleFields<'a> {
    fn of(line: &'a [u8]) -> SaleFields<'a>
        requires { IsFit sale_fits line.now }
        ensures { IsSaleOf line.now result }
    {
        let agent_and_document = &line[11..33];
        SaleFields {
            number: transaction_number(line),
            code: &line[7..11],
            agent: &agent_and_document[..8],
            document: DocumentFields::of(&agent_and_document[8..22]),
            issued: &line[33..39],
            passenger: &line[39..88],
        }
    }
}

impl<'a> TaxFields<'a> {
    fn of(place: &'a [u8]) -> TaxFields<'a>
        requires { length place.now ≡ 13 }
        ensures { IsTaxOf place.now result }
    {
        TaxFields {
            code: &place[..2],
            amount: &place[2..13],
        }
    }
}

impl<'a> AmountsFields<'a> {
    fn of(line: &'a [u8]) -> AmountsFields<'a>
        requires { IsFit amounts_fit line.now }
        ensures { AreAmountsOf line.now result }
    {
        AmountsFields {
            fare: &line[7..18],
            taxes: [
                TaxFields::of(tax_place(line, 0)),
                TaxFields::of(tax_place(line, 1)),
                TaxFields::of(tax_place(line, 2)),
                TaxFields::of(tax_place(line, 3)),
                TaxFields::of(tax_place(line, 4)),
                TaxFields::of(tax_place(line, 5)),
            ],
            rate: &line[96..101],
            commission: &line[101..112],
        }
    }
}

impl<'a> FormFields<'a> {
    fn of(line: &'a [u8]) -> FormFields<'a>
        requires { IsFit form_fits line.now }
        ensures { IsFormOf line.now result }
    {
        FormFields {
            amount: &line[9..20],
            vendor: &line[20..22],
        }
    }
}

impl<'a> GroupFields<'a> {
    pub(crate) fn of(records: Records<'a>) -> GroupFields<'a>
        requires { AreFit (records_of records) }
        ensures { AreFieldsOf (records_of records.entry) result }
    {
        GroupFields {
            sale: SaleFields::of(records.sale),
            related: records.related.map(DocumentFields::of_related),
            second: records.second.map(DocumentFields::of_related),
            amounts: records.amounts.map(AmountsFields::of),
            cash: records.cash.map(FormFields::of),
            credit: records.credit.map(FormFields::of),
            exchange: records.exchange.map(FormFields::of),
        }
    }
}

impl<'a> TrailerFields<'a> {
    pub(crate) fn of(line: &'a [u8]) -> TrailerFields<'a>
        requires { IsFit trailer_fits line.now }
        ensures { IsTrailerOf line.now result }
    {
        TrailerFields {
            records: record_count(line),
            transactions: transaction_count(line),
            sum: &line[15..30],
        }
    }
}
