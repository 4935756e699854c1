//! The list of a HOT file whose records come one after another.

ghost use Rattle.std.specs.Prelude.{◌≡◌, ◌≤◌, ◌<◌, ◌^◌, ◌+◌, ◌++◌, ◌∷◌, [], ℕ, List, length, true, IfOk, IfSome, OnOk};
ghost use Rattle.bsp_fields.specs.Columns.{is_wide};
ghost use Rattle.bsp_hot_records.specs.Judged.{IsSmallRecord};
ghost use Rattle.bsp_check.specs.HotLines.{list_text};
ghost use Rattle.bsp_check.specs.HotListing.{IsListOf, IsOtherTaken, IsListOfFew, IsSmallStage, begun, ended, form_of, stage_after, stage_with};

use crate::hot_lines::{push_agent, push_amounts, push_begun, push_file, push_heading};
use bsp_fields::NoRoom;
use bsp_hot_check::part_sums;
use bsp_hot_records::{FileForm, Record, Sums, Totals, read_record};
use std::alloc::Global;

/// Which lines come next.
#[derive(Clone, Copy)]
enum Stage {
    /// Any.
    Between,
    /// Records of a document, which add up to these sums so far. Its amounts are not in the list yet.
    Document(Sums),
    /// None that is listed: a line was no record.
    Ended,
}

/// The list of the lines of a HOT file that were taken: a line with its airline and its period, one for each document and
/// memo, one for each agent, and one for the file. It ends at the first line that is no record.
#[derive(Drop)]
pub(crate) struct HotList {
    alloc: Global,
    text: Vec<u8>,
    form: FileForm,
    // the number of the next record
    next: usize,
    stage: Stage,
}

/// The stage after a record that is a part of the document whose records come; none for any other line.
fn stage_with(stage: Stage, next: usize, found: &Option<Record>) -> Option<Stage>
    requires small { IsSmallStage next stage }
    requires few { next ≤ 2 ^ 62 }
    requires part { IfSome found.now IsSmallRecord }
    ensures { result ≡ stage_with stage found.now }
{
    match stage {
        Stage::Document(sums) => match found {
            Some(Record::PartOf(found)) => {
                Some(Stage::Document(sums.plus(part_sums(found.part))))
            }
            _ => None,
        },
        _ => None,
    }
}

impl HotList {
    /// The list of no lines.
    pub(crate) fn new(alloc: Global) -> HotList
        ensures { IsListOf result [] }
    {
        HotList {
            alloc,
            text: Vec::new(alloc),
            form: FileForm::One,
            next: 1,
            stage: Stage::Between,
        }
    }

    /// Adds the amounts of the document whose records came.
    fn end_document(&mut self) -> Result<(), NoRoom>
        requires { IsSmallStage (2 ^ 62) self.old.stage }
        ensures text { OnOk result (self.new.text.items ≡ self.old.text.items ++ ended self.old.stage) }
        ensures form { self.new.form ≡ self.old.form }
        ensures next { self.new.next ≡ self.old.next }
    {
        if let Stage::Document(sums) = self.stage {
            let net = sums.net();
            return push_amounts(self.alloc, &mut self.text, Totals { sums, net });
        }
        Ok(())
    }

    /// Adds what is known of a record before those that follow it.
    fn begin_record(&mut self, found: &Record, line: &[u8]) -> Result<(), NoRoom>
        requires { length line.now ≡ 136 }
        ensures text { OnOk result (self.new.text.items ≡ self.old.text.items ++ begun found.now line.now) }
        ensures form { OnOk result (self.new.form ≡ form_of self.old.form found.now) }
        ensures next { self.new.next ≡ self.old.next }
        ensures stage { OnOk result (self.new.stage ≡ stage_after found.now) }
    {
        self.stage = Stage::Between;
        match found {
            Record::FileHeader(heading) => {
                self.form = heading.form;
                push_heading(&mut self.text, heading)
            }
            Record::Document(document) => {
                self.stage = Stage::Document(Sums::DOCUMENT);
                push_begun(&mut self.text, document, line)
            }
            Record::OfficeTotals(office) => {
                push_agent(self.alloc, &mut self.text, office.agent, office.totals)
            }
            Record::FileTotals(file) => push_file(self.alloc, &mut self.text, file.totals),
            _ => Ok(()),
        }
    }

    /// Adds a line that is no part of the document whose records came.
    fn take_other(&mut self, found: &Option<Record>, line: &[u8]) -> Result<(), NoRoom>
        requires small { IsSmallStage (2 ^ 62) self.old.stage }
        requires long { length line.now ≡ 136 }
        ensures { OnOk result (IsOtherTaken self.old self.new found.now line.now) }
    {
        self.end_document()?;
        match found {
            Some(found) => self.begin_record(found, line),
            None => {
                self.stage = Stage::Ended;
                Ok(())
            }
        }
    }

    /// Adds the next line, of a record's width.
    ///
    /// # Errors
    ///
    /// `NoRoom` where an allocation was refused, and for no other cause.
    pub(crate) fn take(&mut self, line: &[u8]) -> Result<(), NoRoom>
        requires wide { is_wide line.now ≡ true }
        requires long { length line.now ≡ 136 }
        requires few { IsListOfFew self.old }
        ensures { OnOk result ((ls : List (List ℕ)) → IsListOf self.old ls → IsListOf self.new (ls ++ line.now ∷ [])) }
    {
        if let Stage::Ended = self.stage {
            return Ok(());
        }
        let found = read_record(self.form, self.next, line);
        let stage = stage_with(self.stage, self.next, &found);
        self.next += 1;
        match stage {
            Some(stage) => {
                self.stage = stage;
                Ok(())
            }
            None => self.take_other(&found, line),
        }
    }

    /// The list, whose file ends here.
    ///
    /// # Errors
    ///
    /// `NoRoom` where an allocation was refused, and for no other cause.
    pub(crate) fn finish(mut self) -> Result<Vec<u8>, NoRoom>
        requires few { IsListOfFew self }
        ensures { IfOk result (λ list. (ls : List (List ℕ)) → IsListOf self ls → list.items ≡ list_text ls) }
    {
        self.end_document()?;
        Ok(self.text)
    }
}
