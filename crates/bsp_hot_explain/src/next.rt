//! Which record may come next in a HOT file, as people read it.

use bsp_hot_check::{Place, Progress, Stage, Standing};
use bsp_hot_records::DocumentCode;

/// What comes after the last record of a document.
fn in_document(progress: Progress) -> &'static str {
    match (progress.stage, progress.code) {
        (Stage::Document, DocumentCode::Canx) => "after BKS24 of a CANX comes BKT06 or BOT93",
        (Stage::Document, DocumentCode::Adma | DocumentCode::Acma) => {
            "after BKS24 of a memo comes BKS30 without taxes"
        }
        (Stage::Document, _) => "after BKS24 comes BKS30",
        (Stage::Amounts, DocumentCode::Adma | DocumentCode::Acma) => {
            "after BKS30 of a memo comes BKP84 with CA"
        }
        (Stage::Amounts, _) => "after BKS30 comes BKS39",
        (Stage::Commission, _) => "after BKS39 comes BKS42",
        (Stage::Charged, DocumentCode::Tktt) => {
            "after the commission comes BKS45, or BKP84 with CA or CC"
        }
        (Stage::Charged, _) => "after the commission of an RFND comes BKS45",
        (Stage::Related, DocumentCode::Tktt) => "after BKS45 comes a later BKS45, or BKP84",
        (Stage::Related, _) => "after BKS45 of an RFND comes BKP84 with CA or CC",
        (Stage::Cash, DocumentCode::Tktt) if progress.related => {
            "after BKP84 with CA of an exchange comes BKP84 with CC or EX"
        }
        (Stage::Cash, DocumentCode::Tktt | DocumentCode::Rfnd) => {
            "after BKP84 with CA comes BKP84 with CC, BKT06 or BOT93"
        }
        (Stage::Cash, _) => "after BKP84 of a memo comes BKT06 or BOT93",
        (Stage::Credit, DocumentCode::Tktt) if progress.related => {
            "after BKP84 with CC comes BKP84 with EX"
        }
        (Stage::Credit, _) => "after BKP84 with CC comes BKT06 or BOT93",
        (Stage::Exchange, _) => "after BKP84 with EX comes BKT06 or BOT93",
    }
}

/// What comes after the BOT93 that are there.
fn in_totals(next: Option<DocumentCode>) -> &'static str {
    match next {
        Some(DocumentCode::Tktt) => "BOT93 of TKTT comes here",
        Some(DocumentCode::Rfnd) => "BOT93 of RFND comes here",
        Some(DocumentCode::Canx) => "BOT93 of CANX comes here",
        Some(DocumentCode::Adma) => "BOT93 of ADMA comes here",
        Some(DocumentCode::Acma) => "BOT93 of ACMA comes here",
        None => "after the last BOT93 comes BOT94",
    }
}

/// A place in a HOT file, and the code whose BOT93 comes next. A reason displays what may come there.
#[derive(Clone, Copy)]
pub struct Expected {
    place: Place,
    code: Option<DocumentCode>,
}

impl Expected {
    /// What may come after the records of this state.
    pub(crate) fn of(at: &Standing) -> Expected {
        Expected {
            place: at.place,
            code: at.office.codes.next_code(at.place),
        }
    }

    /// What may come.
    pub(crate) fn text(self) -> &'static str {
        match self.place {
            Place::Start => "a HOT file begins with BFH01",
            Place::Headed => "after BFH01 comes BCH02",
            Place::Between => "after BCH02 or BOT94 comes BOH03 or BCT95",
            Place::Opened => "after BOH03 comes BKT06",
            Place::Begun => "after BKT06 comes BKS24",
            Place::InDocument(progress) => in_document(progress),
            Place::Totalled(_) => in_totals(self.code),
            Place::Closed => "after BCT95 comes BFT99",
            Place::Ended => "BFT99 is the last record",
        }
    }
}
