//! The records of a group.

ghost use Rattle.std.specs.Prelude.{◌≡◌, ◌<◌, ◌∷◌, List, ℕ, true, length};
ghost use Rattle.std.specs.List.{list_all};
ghost use Rattle.bsp_fields.specs.Lines.{lines};
ghost use Rattle.bsp_fields.specs.Columns.{is_wide};

use bsp_fields::first_line;
use bsp_ret_records::{FormOfPayment, form_of};

/// The records of a transaction, as slices of the text, without their line ends.
#[derive(Clone, Copy)]
pub(crate) struct Records<'a> {
    /// Record 2.
    pub sale: &'a [u8],
    /// Record 3.
    pub related: Option<&'a [u8]>,
    /// A second record 3.
    pub second: Option<&'a [u8]>,
    /// Record 5.
    pub amounts: Option<&'a [u8]>,
    /// Record 8 with CA.
    pub cash: Option<&'a [u8]>,
    /// Record 8 with CC.
    pub credit: Option<&'a [u8]>,
    /// Record 8 with EX.
    pub exchange: Option<&'a [u8]>,
}

impl<'a> Records<'a> {
    ghost use Rattle.bsp_ret.specs.Groups.{records_of, sale_alone, with_related, with_record, with_records};

    /// The records of these lines.
    pub(crate) fn of(text: &'a [u8]) -> Records<'a>
        requires some { 0 < length text.now }
        requires wide { list_all is_wide (lines text.now) ≡ true }
        ensures { (sale : List ℕ) (more : List (List ℕ)) → lines text.now ≡ sale ∷ more → records_of result ≡ with_records (sale_alone sale) more }
    {
        let (sale, mut rest) = first_line(text);
        let mut records = Records {
            sale,
            related: None,
            second: None,
            amounts: None,
            cash: None,
            credit: None,
            exchange: None,
        };
        while !rest.is_empty() {
            let (line, after) = first_line(rest);
            records.put(line);
            rest = after;
        }
        records
    }

    /// Puts a record 3 in its place.
    fn put_related(&mut self, line: &'a [u8])
        ensures { records_of self.new ≡ with_related (records_of self.old).related (records_of self.old) line.now }
    {
        match self.related {
            None => self.related = Some(line),
            Some(_) => self.second = Some(line),
        }
    }

    /// Puts a further record in its place.
    #[tactic(auto, unfolding(crate::specs::Groups::with_record))]
    fn put(&mut self, line: &'a [u8])
        requires { length line.now ≡ 136 }
        ensures { records_of self.new ≡ with_record (records_of self.old) line.now }
    {
        match line[0] {
            b'3' => self.put_related(line),
            b'5' => self.amounts = Some(line),
            _ => match form_of(line) {
                Some(FormOfPayment::Cash) => self.cash = Some(line),
                Some(FormOfPayment::Credit) => self.credit = Some(line),
                Some(FormOfPayment::Exchange) => self.exchange = Some(line),
                None => {}
            },
        }
    }
}
