//! Keys, which are byte strings of at most 256 bytes, and spans of keys.
//!
//! Keys are in lexicographic order by byte. A span is a range of keys `[key, end)` or a single key.
//! Contracts see a key as its list of bytes and a span as the pair (key, end), whose end is empty for a
//! single key.
#![tactic(auto)]

mod keys;
mod room;
mod scopes;
mod spans;

pub use keys::{Key, KeyFault, Memory};
pub use room::SpanRoom;
pub use scopes::Scope;
pub use spans::{Reversed, Span};

#[cfg(test)]
mod tests;
