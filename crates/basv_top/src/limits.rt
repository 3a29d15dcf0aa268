//! How contents of too many bytes are refused. The count stops one past the limit.

use bv_base::{CRUNCHED_FILE_BYTES, IMAGE_WORDS, INPUT_BYTES, TEXT_FILE_BYTES};
use profile_check::{Refusal, Which};

/// How an image of too many words is refused.
pub const LONG_IMAGE: Refusal = Refusal::Limit {
    which: Which::Image,
    count: IMAGE_WORDS + 1,
};

/// How an input of too many bytes is refused.
pub const LONG_INPUT: Refusal = Refusal::Limit {
    which: Which::Input,
    count: INPUT_BYTES + 1,
};

/// How a text of too many bytes is refused.
pub const LONG_TEXT: Refusal = Refusal::Limit {
    which: Which::Text,
    count: TEXT_FILE_BYTES + 1,
};

/// How a text is refused whose file would have too many bytes.
pub const LONG_CRUNCHED: Refusal = Refusal::Limit {
    which: Which::File,
    count: CRUNCHED_FILE_BYTES + 1,
};
