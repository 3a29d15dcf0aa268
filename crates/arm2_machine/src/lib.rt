//! The board: an ARM2 with 16 MiB of RAM and a few calls to the outside, and the image files that it runs.
#![tactic(auto)]

mod board;
mod image;
mod input;
mod laws;
mod machine;
mod ram;
mod reports;
mod step;
mod swi;
mod words;

pub use board::Board;
pub use image::{ImageError, read_image, write_image};
pub use laws::calls_add_up;
pub use swi::{SWI_CHARACTER, SWI_END, SWI_NEW_LINE, SWI_READ, SWI_WRITE};
