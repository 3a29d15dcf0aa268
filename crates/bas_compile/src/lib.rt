//! The compiler from tokenised BASIC V to images of the board: the program of a file, its flat code, its machine code, and the
//! image; and the agreement of each image with its program.
#![tactic(auto)]

mod compiler;
mod laws;

pub use compiler::compile;
pub use laws::compiled_images_agree;
