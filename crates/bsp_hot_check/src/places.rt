//! What may follow what.

ghost use Rattle.std.specs.Prelude.{◌≡◌};
ghost use Rattle.bsp_hot_check.specs.Standings.{is_at, is_complete, is_complete_progress, comes_behind, takes_related, takes, commission_stage, stage_of, only_behind, progress_behind, takes_transaction, stands_in, left_codes, next_code};

use crate::model::{CodeSums, Place, Progress, Stage};
use bsp_fields::AirlineCode;
use bsp_hot_records::{DocumentCode, FileForm, Part};

/// Whether a second BKS45 may come with the number.
fn comes_behind(only: Option<u64>, number: u64) -> bool
    ensures { result ≡ comes_behind only number }
{
    match only {
        Some(first) => first < number,
        None => false,
    }
}

/// The number of a BKS45 that is alone, where the document has another or not.
fn only_behind(related: bool, part: Part) -> Option<u64>
    ensures { result ≡ only_behind related part }
{
    match part {
        Part::Related(other) if !related => Some(other.number),
        _ => None,
    }
}

impl Progress {
    /// Whether the document has all its records.
    pub fn is_complete(self) -> bool
        ensures { result ≡ is_complete_progress self }
    {
        match self.code {
            DocumentCode::Tktt => match self.stage {
                Stage::Cash | Stage::Credit => !self.related,
                Stage::Exchange => true,
                _ => false,
            },
            DocumentCode::Rfnd => matches!(self.stage, Stage::Cash | Stage::Credit),
            DocumentCode::Canx => matches!(self.stage, Stage::Document),
            DocumentCode::Adma | DocumentCode::Acma => matches!(self.stage, Stage::Cash),
        }
    }

    /// Whether the record may come next in a document of this airline.
    pub fn takes(self, airline: AirlineCode, part: Part) -> bool
        ensures { result ≡ takes airline self part }
    {
        match part {
            Part::Amounts(taxed) => {
                matches!(self.stage, Stage::Document)
                    && match self.code {
                        DocumentCode::Tktt | DocumentCode::Rfnd => true,
                        DocumentCode::Canx => false,
                        DocumentCode::Adma | DocumentCode::Acma => !taxed,
                    }
            }
            Part::Commission(_) => matches!(self.stage, Stage::Amounts)
                && matches!(self.code, DocumentCode::Tktt | DocumentCode::Rfnd),
            Part::CommissionTax(_) => matches!(self.stage, Stage::Commission)
                && matches!(self.code, DocumentCode::Tktt | DocumentCode::Rfnd),
            Part::Related(other) => { self.takes_related(other.number) && other.airline == airline }
            Part::Cash(_) => match self.code {
                DocumentCode::Tktt => matches!(self.stage, Stage::Charged | Stage::Related),
                DocumentCode::Rfnd => matches!(self.stage, Stage::Related),
                DocumentCode::Canx => false,
                DocumentCode::Adma | DocumentCode::Acma => matches!(self.stage, Stage::Amounts),
            },
            Part::Credit(_) => match self.code {
                DocumentCode::Tktt => {
                    matches!(self.stage, Stage::Charged | Stage::Related | Stage::Cash)
                }
                DocumentCode::Rfnd => matches!(self.stage, Stage::Related | Stage::Cash),
                _ => false,
            },
            Part::Exchange => {
                matches!(self.code, DocumentCode::Tktt)
                    && matches!(self.stage, Stage::Related | Stage::Cash | Stage::Credit)
                    && self.related
            }
        }
    }

    /// Whether a BKS45 with the number may come next, the first of a document or a second one.
    pub fn takes_related(self, number: u64) -> bool
        ensures { result ≡ takes_related self number }
    {
        match self.stage {
            Stage::Charged => matches!(self.code, DocumentCode::Tktt | DocumentCode::Rfnd),
            Stage::Related => {
                matches!(self.code, DocumentCode::Tktt) && comes_behind(self.only, number)
            }
            _ => false,
        }
    }

    /// With this record, in a file of the form.
    pub(crate) fn behind(self, form: FileForm, part: Part) -> Progress
        ensures { result ≡ progress_behind form self part }
    {
        Progress {
            code: self.code,
            stage: Stage::of(form, part),
            related: self.related || matches!(part, Part::Related(_)),
            only: only_behind(self.related, part),
        }
    }
}

impl Stage {
    /// That of a document whose last record is BKS39. In form 2 its BKS42 comes next.
    fn after_commission(form: FileForm) -> Stage
        ensures { result ≡ commission_stage form }
    {
        match form {
            FileForm::One => Stage::Charged,
            FileForm::Two => Stage::Commission,
        }
    }

    /// That of a document whose last record is this one, in a file of the form.
    fn of(form: FileForm, part: Part) -> Stage
        ensures { result ≡ stage_of form part }
    {
        match part {
            Part::Amounts(_) => Stage::Amounts,
            Part::Commission(_) => Stage::after_commission(form),
            Part::CommissionTax(_) => Stage::Charged,
            Part::Related(_) => Stage::Related,
            Part::Cash(_) => Stage::Cash,
            Part::Credit(_) => Stage::Credit,
            Part::Exchange => Stage::Exchange,
        }
    }
}

impl Place {
    /// Whether a file ends here.
    pub fn is_ended(self) -> bool
        ensures { result ≡ is_at Place.Ended self }
    {
        matches!(self, Place::Ended)
    }

    /// Whether a transaction may begin.
    pub fn takes_transaction(self) -> bool
        ensures { result ≡ takes_transaction self }
    {
        match self {
            Place::Opened => true,
            Place::InDocument(progress) => progress.is_complete(),
            _ => false,
        }
    }

    /// The codes whose BOT93 may still come.
    fn left_codes(self) -> &'static [DocumentCode]
        ensures { result.now ≡ left_codes self }
    {
        match self {
            Place::InDocument(progress) if progress.is_complete() => &DocumentCode::ALL,
            Place::Totalled(code) => &DocumentCode::ALL[usize::from(code.rank()) + 1..],
            _ => &[],
        }
    }
}

impl CodeSums {
    /// Whether there is a document of the code.
    fn stands_in(self, code: DocumentCode) -> bool
        ensures { result ≡ stands_in self code }
    {
        self.of(code).documents > 0
    }

    /// The code whose BOT93 comes next: the first with a document whose BOT93 is not there yet.
    pub fn next_code(self, place: Place) -> Option<DocumentCode>
        ensures { result ≡ next_code self place }
    {
        let codes = place.left_codes();
        for code in codes {
            if self.stands_in(*code) {
                return Some(*code);
            }
        }
        None
    }
}
