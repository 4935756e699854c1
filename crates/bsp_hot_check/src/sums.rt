//! What documents add up to by code, and their order.

ghost use Rattle.std.specs.Prelude.{◌≡◌, ◌-◌, ◌^◌};
ghost use Rattle.bsp_hot_records.specs.Judged.{IsSmallPart};
ghost use Rattle.bsp_hot_records.specs.Sums.{AreSmall};
ghost use Rattle.bsp_hot_check.specs.Hot.{is_before};
ghost use Rattle.bsp_hot_check.specs.Standings.{sums_at, add_at, judged_sums, AreSmallSums};

use crate::model::{CodeSums, DocumentKey, OfficeSums};
use bsp_hot_records::{DocumentCode, Part, Sums};

impl DocumentKey {
    /// Whether the other comes behind it: by the code, then by the number.
    pub fn is_before(self, other: &DocumentKey) -> bool
        ensures { result ≡ is_before self.code self.number other.now.code other.now.number }
    {
        let (code, other_code) = (self.code.rank(), other.code.rank());
        code < other_code || code == other_code && self.number < other.number
    }
}

impl CodeSums {
    /// Of nothing.
    pub const NONE: CodeSums = CodeSums {
        tktt: Sums::NONE,
        rfnd: Sums::NONE,
        canx: Sums::NONE,
        adma: Sums::NONE,
        acma: Sums::NONE,
    };

    /// Those of a code.
    pub fn of(self, code: DocumentCode) -> Sums
        ensures { result ≡ sums_at self code }
    {
        match code {
            DocumentCode::Tktt => self.tktt,
            DocumentCode::Rfnd => self.rfnd,
            DocumentCode::Canx => self.canx,
            DocumentCode::Adma => self.adma,
            DocumentCode::Acma => self.acma,
        }
    }

    /// With more of the code.
    pub fn plus(self, code: DocumentCode, sums: Sums) -> CodeSums
        requires small { AreSmallSums (2 ^ 63) self }
        requires also_small { AreSmall (2 ^ 63 - 1) sums }
        ensures { result ≡ add_at self code sums }
    {
        let mut codes = self;
        codes.add(code, sums);
        codes
    }

    /// Adds more of the code.
    pub(crate) fn add(&mut self, code: DocumentCode, sums: Sums)
        requires small { AreSmallSums (2 ^ 63) self.old }
        requires also_small { AreSmall (2 ^ 63 - 1) sums }
        ensures { self.new ≡ add_at self.old code sums }
    {
        match code {
            DocumentCode::Tktt => self.tktt = self.tktt.plus(sums),
            DocumentCode::Rfnd => self.rfnd = self.rfnd.plus(sums),
            DocumentCode::Canx => self.canx = self.canx.plus(sums),
            DocumentCode::Adma => self.adma = self.adma.plus(sums),
            DocumentCode::Acma => self.acma = self.acma.plus(sums),
        }
    }
}

/// What a record of a document adds. EX is in no total.
pub fn part_sums(part: Part) -> Sums
    requires { IsSmallPart part }
    ensures { result ≡ judged_sums part }
{
    let mut sums = Sums::NONE;
    match part {
        Part::Commission(amount) => sums.commission = amount as i128,
        Part::CommissionTax(amount) => sums.tax = amount as i128,
        Part::Cash(amount) => sums.cash = amount as i128,
        Part::Credit(amount) => sums.credit = amount as i128,
        _ => {}
    }
    sums
}

impl OfficeSums {
    /// Of an office without documents.
    pub(crate) const NONE: OfficeSums = OfficeSums {
        codes: CodeSums::NONE,
        all: Sums::NONE,
        latest: None,
    };
}
