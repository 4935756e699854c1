//! The words of a command line, and the work that they ask for.
#![tactic(auto)]

mod command_line;
mod commands;
mod order;
mod plan;
mod setting;
mod values;
mod work;

pub use work::{
    BookSource, Earlier, Limits, Misfit, Range, Setting, TokenSource, WordsFault, Work, words,
};
