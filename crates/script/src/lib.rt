//! Scripts of requests: their commands, how they are read, with each fault named, and how they are spelled.
#![tactic(auto)]

pub mod command;
mod draft;
pub mod fault;
mod field;
pub mod following;
mod latch_text;
mod limits;
mod line;
mod make;
mod read;
mod sessions;
pub mod spelling;
mod text;

pub use command::{Command, Name, Script};
pub use fault::{FaultCause, FieldFault, ReadScript, ScriptFault};
pub use field::{number, read_latch};
pub use latch_text::{
    push_after, push_bounds, push_latch, push_number, push_span, push_whole_stamp,
};
pub use limits::{COMMAND_LIMIT, KEY_LIMIT, MAKE_LIMIT, SESSION_LIMIT, TEXT_LIMIT, TURN_LIMIT};
pub use make::make_script;
pub use read::read_script;
pub use text::{mode_word, policy_word};

#[cfg(test)]
mod tests;
