// The printed session: a document file in, its lines out.
#![tactic(auto)]

mod lines;
mod opening;
mod outline;
mod session;
mod text;

pub use lines::{node_line, ok_line, refusal_line};
pub use session::{LONGEST, ROOM, print};
