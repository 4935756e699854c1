//! Whether a JSON body is read.

ghost use Rattle.std.specs.Prelude.{◌≡◌, ◌<◌, length, IfOk, OnErr};
ghost use Rattle.bsp_body_faults.specs.Forms.{is_json_body};
ghost use Rattle.bsp_body_faults.specs.Faults.{Reads};

use crate::form::JsonForm;
use bsp_fields::NoRoom;
use bsp_messages::{
    BodyFault as ReadFault, read_agent_registration, read_airline_registration, read_day,
    read_issue, read_memo_document, read_named_memo, read_period, read_reduction,
    read_stock_change,
};
use std::alloc::Global;

/// Whether a reader read.
fn is_read<T: Copy>(read: Result<T, ReadFault>) -> Result<bool, NoRoom>
    ensures { Reads read result }
{
    match read {
        Ok(_) => Ok(true),
        Err(ReadFault::Malformed) => Ok(false),
        Err(ReadFault::NoRoom) => Err(NoRoom),
    }
}

/// Whether the reader of the form reads these bytes.
pub(crate) fn is_json_body(alloc: Global, form: JsonForm, body: &[u8]) -> Result<bool, NoRoom>
    ensures reads { IfOk result (λ reads. reads ≡ is_json_body form body.now) }
    ensures room { OnErr result (0 < length body.now) }
{
    match form {
        JsonForm::Day => is_read(read_day(alloc, body)),
        JsonForm::AgentRegistration => is_read(read_agent_registration(alloc, body)),
        JsonForm::AirlineRegistration => is_read(read_airline_registration(alloc, body)),
        JsonForm::StockChange => is_read(read_stock_change(alloc, body)),
        JsonForm::Period => is_read(read_period(alloc, body)),
        JsonForm::NamedMemo => is_read(read_named_memo(alloc, body)),
        JsonForm::Document => is_read(read_memo_document(alloc, body)),
        JsonForm::Reduction => is_read(read_reduction(alloc, body)),
        JsonForm::Issue => is_read(read_issue(alloc, body)),
    }
}
