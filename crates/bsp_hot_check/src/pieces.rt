//! The lines with which a text ends.

ghost use Rattle.std.specs.Prelude.{◌≡◌, ◌≤◌, ◌+◌, ◌^◌, Some, length, IfErr, OnOk};
ghost use Rattle.bsp_fields.specs.Lines.{lines};
ghost use Rattle.bsp_hot_check.specs.Standings.{IsSmall};
ghost use Rattle.bsp_hot_check.specs.Judging.{stands_after};
ghost use Rattle.bsp_hot_check.specs.Pieces.{Passes, AreRefused};

use crate::model::Standing;
use bsp_fields::first_record;

impl Standing {
    /// Takes the lines of the bytes with which a text ends.
    ///
    /// # Errors
    ///
    /// The bytes from the first line on that the records before it do not allow.
    pub fn take_last<'a>(&mut self, bytes: &'a [u8]) -> Result<(), &'a [u8]>
        requires small { IsSmall self.old }
        requires room { self.old.records + length bytes.now ≤ 2 ^ 63 }
        ensures all { OnOk result (stands_after self.old (lines bytes.now) ≡ Some self.new) }
        ensures stopped { IfErr result (λ rest. Passes self.old bytes.now self.new rest.now) }
        ensures refused { IfErr result (λ rest. AreRefused self.new (lines rest.now)) }
        ensures small { IsSmall self.new }
        ensures records { self.new.records ≤ self.old.records + length bytes.now }
    {
        let mut rest = bytes;
        while !rest.is_empty() {
            let Some((line, after)) = first_record(rest) else {
                return Err(rest);
            };
            if !self.take_line(line) {
                return Err(rest);
            }
            rest = after;
        }
        Ok(())
    }
}
