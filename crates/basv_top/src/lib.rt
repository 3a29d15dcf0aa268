//! The program `basv` over any shelf and sinks: its commands, each in a file of its own, their statuses, and their lines on
//! the error output.
#![tactic(auto)]

mod compile_command;
mod crunch_command;
mod ending;
mod interp_command;
mod laws;
mod limits;
mod list_command;
mod message;
mod run_command;
mod running;
mod status;
mod taking;
mod top;

pub use bas_compile::compile;
pub use laws::basv_in_memory;
pub use profile_check::{Refusal, Which};
pub use status::Status;
pub use top::basv;
