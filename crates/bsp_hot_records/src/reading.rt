//! A record from its line.

ghost use Rattle.std.specs.Prelude.{◌≡◌, length, true, IfSome};
ghost use Rattle.bsp_fields.specs.Columns.{is_wide};
ghost use Rattle.bsp_hot_records.specs.Reading.{record_at, judged_at};
ghost use Rattle.bsp_hot_records.specs.Judged.{IsSmallRecord};

use crate::form::FileForm;
use crate::model::Record;
use crate::name::RecordName;
use crate::records::record_of;
use bsp_fields::spells;

/// What is judged of a line that has a record's width, where it is a record with this number in a
/// file of that form. BFH01 is the same in each form.
#[tactic(auto, unfolding(crate::specs::Reading::record_at))]
#[inline(always)]
pub fn read_record(form: FileForm, number: usize, line: &[u8]) -> Option<Record>
    requires wide { is_wide line.now ≡ true }
    requires long { length line.now ≡ 136 }
    ensures value { result ≡ judged_at form number line.now }
    ensures small { IfSome result IsSmallRecord }
{
    if !spells(number, &line[3..11]) {
        return None;
    }
    let Some(name) = RecordName::of(&line[11..13]) else {
        return None;
    };
    if !name.has_letters(&line[..3]) {
        return None;
    }
    record_of(form, name, line)
}
