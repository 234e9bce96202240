//! A request between its begin and its end: it waits for the latches that it met in its snapshot, or checks instead, is granted, and
//! ends. Each of its stages is a value that must be spent.
#![tactic(auto)]

mod granted;
mod mark;
mod opened;
mod optimist;
mod shared;
mod waiting;

pub use granted::{EndParts, Ending, Granted};
pub use mark::Mark;
pub use opened::Opened;
pub use optimist::{Checked, Optimist};
pub use shared::Core;
pub use waiting::{Polled, Waiting};
