//! The command `explain`: what a code means, or the list of all codes.

use crate::whole_files::{printed, short_of_memory};
use bsp_check::{DONE, WRONG_WORDS};
use bsp_fault_texts::{explanation, listing};

/// Explains a code, in capital or small letters, and answers the exit status.
fn explain_code(rt: &HostRuntime, code: &str) -> u8 {
    let Ok(capitals) = code.to_ascii_uppercase(rt.alloc()) else {
        return short_of_memory(rt);
    };
    match explanation(rt.alloc(), &capitals) {
        Ok(Some(text)) => printed(rt, &text, DONE),
        Ok(None) => {
            let _ = eprintln!(rt; "bsp_office: {code} is no code: explain alone lists all");
            WRONG_WORDS
        }
        Err(_) => short_of_memory(rt),
    }
}

/// Explains a code, or lists all codes, and answers the exit status.
pub(crate) fn run_explain(rt: &HostRuntime, code: Option<&str>) -> u8 {
    match code {
        Some(code) => explain_code(rt, code),
        None => match listing(rt.alloc()) {
            Ok(text) => printed(rt, &text, DONE),
            Err(_) => short_of_memory(rt),
        },
    }
}
