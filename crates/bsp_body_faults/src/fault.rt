//! The faults of bodies.

use crate::json_fault::JsonFault;
use bsp_calendar::PlanFault;
use bsp_ret::RetFault;

/// Why the route of a call refuses a body.
#[derive(Clone, Copy)]
pub enum BodyFault {
    /// The body is malformed: N04.
    Json(JsonFault),
    /// The first fault of a RET file, F01 to F09.
    Ret(RetFault),
    /// The first fault that a plan text has by itself, P01 or P02.
    Plan(PlanFault),
}
