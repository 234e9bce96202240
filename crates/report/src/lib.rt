//! How histories, latches and marks are shown.
#![tactic(auto)]

mod counts;
mod lines;
mod objects;
mod passing;
mod text;
pub mod worked;

pub use counts::Summary;
pub use lines::render;
pub use objects::render_json;
pub use text::{held_latch_text, latch_text, mark_text, number_text, numbers_text};

#[cfg(test)]
mod tests;
