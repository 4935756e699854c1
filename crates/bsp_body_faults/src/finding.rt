//! The fault of a body.

ghost use Rattle.std.specs.Prelude.{◌≡◌, IfOk};
ghost use Rattle.bsp_body_faults.specs.Forms.{form_of};
ghost use Rattle.bsp_body_faults.specs.Faults.{IsFaultOf, IsJsonFault, IsPlanFault, IsRetFault};

use crate::fault::BodyFault;
use crate::form::{BodyForm, JsonForm, body_form};
use crate::json_fault::JsonFault;
use crate::members::json_cause;
use crate::reading::is_json_body;
use bsp_calendar::{PlanFault, read_plan};
use bsp_fields::NoRoom;
use bsp_ret::{FaultCode, read_ret};
use bsp_routes::Call;
use std::alloc::Global;

/// The first fault of a RET file.
fn ret_fault(alloc: Global, body: &[u8]) -> Result<Option<BodyFault>, NoRoom>
    ensures { IfOk result (IsRetFault body.now) }
{
    match read_ret(alloc, body) {
        Ok(_) => Ok(None),
        Err(fault) if fault.code == FaultCode::F10 => Err(NoRoom),
        Err(fault) => Ok(Some(BodyFault::Ret(fault))),
    }
}

/// The first fault that a plan text has by itself.
#[tactic(auto, using(crate::proofs::PlanLemmas::own_fault))]
fn plan_fault(alloc: Global, body: &[u8]) -> Result<Option<BodyFault>, NoRoom>
    ensures { IfOk result (IsPlanFault body.now) }
{
    match read_plan(alloc, body) {
        Ok(_) => Ok(None),
        Err(fault) if fault == PlanFault::NoMemory => Err(NoRoom),
        Err(fault) => Ok(Some(BodyFault::Plan(fault))),
    }
}

/// Why a JSON body is malformed.
fn json_fault(alloc: Global, form: JsonForm, body: &[u8]) -> Result<Option<BodyFault>, NoRoom>
    ensures { IfOk result (IsJsonFault form body.now) }
{
    if is_json_body(alloc, form, body)? {
        return Ok(None);
    }
    let cause = json_cause(alloc, form, body)?;
    Ok(Some(BodyFault::Json(JsonFault { form, cause })))
}

/// The fault of the body of a call: none if and only if the route of the call reads it. A call without a body
/// ignores what comes.
///
/// # Errors
///
/// `NoRoom` where an allocation was refused.
pub fn body_fault<V: Copy>(
    alloc: Global,
    call: Call<V>,
    body: &[u8],
) -> Result<Option<BodyFault>, NoRoom>
    ensures { IfOk result (IsFaultOf (form_of call) body.now) }
{
    match body_form(call) {
        BodyForm::NoBody => Ok(None),
        BodyForm::Ret => ret_fault(alloc, body),
        BodyForm::PlanText => plan_fault(alloc, body),
        BodyForm::Json(form) => json_fault(alloc, form, body),
    }
}
