//! Writes a file.

ghost use Rattle.std.specs.Prelude.{◌≡◌, ◌∷◌, ◌++◌, ℤ, [], IfErr, IfOk, OnOk};
ghost use Rattle.bsp_ret_records.specs.Records.{trailer_fits, IsFit};
ghost use Rattle.bsp_ret.specs.Reading.{no_memory};
ghost use Rattle.bsp_ret_writer.specs.Writing.{trailer_line, AreWritten, IsWrittenTrailer, IsWritten};

use crate::content::stored;
use crate::writing::{push_group, push_line};
use bsp_fields::write_total;
use bsp_ret::{RetFault, RetFile, transaction};
use bsp_ret_records::{record_count, told_sum, transaction_count};
use std::alloc::{AllocError, Global};

/// Appends the records of all transactions.
fn push_groups(out: &mut Vec<u8>, file: &RetFile<'_>) -> Result<(), AllocError>
    ensures { OnOk result (AreWritten out.old.items file.now.groups out.new.items) }
{
    for index in 0..file.transactions() {
        let Some(found) = transaction(file, index) else {
            unreachable!()
        };
        stored(found);
        push_group(out, index as u64 + 1, &found)?;
    }
    Ok(())
}

/// Appends the record Z.
#[tactic(auto, unfolding(bsp_ret_records::specs::Records::trailer_fits, crate::specs::Writing::trailer_line))]
fn push_trailer(out: &mut Vec<u8>, line: &[u8]) -> Result<(), AllocError>
    requires { IsFit trailer_fits line.now }
    ensures { OnOk result ((sum : ℤ) × (IsWrittenTrailer line.now sum × (out.new.items ≡ out.old.items ++ trailer_line line.now sum ++ 10 ∷ []))) }
{
    let sum = told_sum(line);
    push_line(
        out,
        &[
            b"Z".as_slice(),
            record_count(line),
            transaction_count(line),
            &write_total(sum),
            &[b' '; 106],
        ],
    )
}

/// Writes a RET file: the same values, LF behind every record, and each amount and the sum in their
/// one spelling.
///
/// # Errors
///
/// F10 with record 0 where an allocation was refused.
pub fn write_ret(alloc: Global, file: &RetFile<'_>) -> Result<Vec<u8>, RetFault>
    ensures written { IfOk result (λ text. IsWritten file.now text.items) }
    ensures refused { IfErr result (λ e. e ≡ no_memory) }
{
    let mut out = Vec::new(alloc);
    push_line(&mut out, &[file.header_line()])?;
    push_groups(&mut out, file)?;
    push_trailer(&mut out, file.trailer_line())?;
    Ok(out)
}
