//! The command `body`: whether the route of a request reads a body, or which fault it has.

use crate::remarks::{say, say_answer, say_known, say_reason};
use crate::whole_files::{bytes_of, printed, short_of_memory};
use bsp_body_faults::{BodyFault, BodyForm, body_fault, body_form, body_line, body_text};
use bsp_calendar::PlanFault;
use bsp_check::{DONE, Explanation, REFUSED, Verdict};
use bsp_desk::Asking;
use bsp_explain::{Words, explain_ret};
use bsp_fields::NoRoom;
use bsp_http::Routes;
use bsp_plan_trial::{PlanRefused, refusal_reason};
use bsp_routes::{Call, Methods};

/// Says why a plan text is refused.
fn say_plan(rt: &HostRuntime, file: &str, body: &[u8], fault: PlanFault) -> Result<(), NoRoom> {
    let refused = PlanRefused { place: 0, fault };
    let reason = refusal_reason(rt.alloc(), &[], None, body, refused)?;
    say_known(rt, file, &reason);
    Ok(())
}

/// Says why a RET file is refused.
fn say_ret(rt: &HostRuntime, file: &str, body: &[u8]) {
    if let Some(explanation) = explain_ret(body) {
        let verdict = Verdict::Refused(Explanation::Ret(explanation));
        say_answer(rt, file, &Ok(verdict));
    }
}

/// Says why a RET file is refused, or a plan text.
fn say_file(
    rt: &HostRuntime,
    file: &str,
    body: &[u8],
    found: Option<BodyFault>,
) -> Result<(), NoRoom> {
    match found {
        Some(BodyFault::Ret(_)) => {
            say_ret(rt, file, body);
            Ok(())
        }
        Some(BodyFault::Plan(fault)) => say_plan(rt, file, body, fault),
        _ => Ok(()),
    }
}

/// Says why the route of a call refuses a body, or what is to be known of one that it reads.
fn say_found(
    rt: &HostRuntime,
    call: Call<&[u8]>,
    file: &str,
    body: &[u8],
    found: Option<BodyFault>,
) -> Result<(), NoRoom> {
    if let Some(text) = body_text(rt.alloc(), call, body, found)? {
        say_reason(rt, file, &text);
        return Ok(());
    }
    say_file(rt, file, body, found)
}

/// Says what is wrong with the body of a call, if anything, and answers its line.
fn line_of(
    rt: &HostRuntime,
    call: Call<&[u8]>,
    file: &str,
    body: &[u8],
) -> Result<(Vec<u8>, u8), NoRoom> {
    let found = body_fault(rt.alloc(), call, body)?;
    let line = body_line(rt.alloc(), found)?;
    say_found(rt, call, file, body, found)?;
    Ok((line, if found.is_none() { DONE } else { REFUSED }))
}

/// Reports whether the route of a call reads a body, and answers the exit status.
fn report_body(rt: &HostRuntime, call: Call<&[u8]>, file: &str, body: &[u8]) -> u8 {
    match line_of(rt, call, file, body) {
        Ok((line, status)) => printed(rt, &line, status),
        Err(_) => short_of_memory(rt),
    }
}

/// Reports on the body of a call, and answers the exit status. A call without a body ignores what comes.
fn report_call(rt: &HostRuntime, request: &str, call: Call<&[u8]>, file: &str, body: &[u8]) -> u8 {
    if body_form(call) == BodyForm::NoBody {
        say(
            rt,
            request,
            &"it has no body: what comes with it is ignored",
        );
        return printed(rt, b"OK\n", DONE);
    }
    report_body(rt, call, file, body)
}

/// Reports that the path has other methods, and answers the exit status.
fn report_method(rt: &HostRuntime, request: &str, methods: Methods) -> u8 {
    let start = if methods == Methods::GetAndPost {
        "the path has the methods "
    } else {
        "the path has the method "
    };
    let mut words = Words::new();
    words.add(start);
    words.add(methods.allow());
    say(rt, request, &words.text());
    printed(rt, b"N03\n", REFUSED)
}

/// Reports that a request is none, and answers the exit status.
fn report_route(rt: &HostRuntime, request: &str) -> u8 {
    let text = "it is no request: write one of docs/API.md, as 'POST /office/day'";
    say(rt, request, &text);
    printed(rt, b"N02\n", REFUSED)
}

/// Reports whether the route of a request reads a body, and answers the exit status.
fn report_request(rt: &HostRuntime, routes: &Routes, request: &str, file: &str, body: &[u8]) -> u8 {
    let (method, target) = request.split_once(' ').unwrap_or((request, ""));
    match routes.ask(method.as_bytes(), target.as_bytes()) {
        Asking::Call(call) => report_call(rt, request, call, file, body),
        Asking::OtherMethod(methods) => report_method(rt, request, methods),
        Asking::NoRoute => report_route(rt, request),
    }
}

/// Reports whether the route of a request, METHOD TARGET, reads the body in a file, and answers the exit status.
pub(crate) fn run_body(rt: &HostRuntime, request: &str, file: &str) -> u8 {
    let Ok(routes) = Routes::new(rt.alloc()) else {
        return short_of_memory(rt);
    };
    match bytes_of(rt, file) {
        Ok(body) => report_request(rt, &routes, request, file, &body),
        Err(status) => status,
    }
}
