//! What no command owns: the lines of a source up to a limit of bytes and the replies to them, each
//! as soon as its end was read, and writing that stops. Promised: what was taken, and what was
//! written of it. Not promised: what a line means.
#![tactic(auto)]

mod answering;
pub mod end;
mod held_line;
pub mod limits;
mod pieces;
pub mod putting;
pub mod replier;
mod source_lines;
pub mod stop;

pub use end::End;
pub use limits::LINE_LIMIT;
pub use putting::put_all;
pub use replier::Replier;
pub use source_lines::answer_source;
pub use stop::Stop;
