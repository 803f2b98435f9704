// Names of levels, and which byte strings may be one.

ghost use Rattle.std.specs.Prelude.{◌≡◌, ◌||◌, not, nat_lt, length};
ghost use Rattle.sap_text.specs.Names.{is_word, is_among, design_keywords};

use crate::MOST_NAME_BYTES;
pub use sap_text::name::Name;
use sap_text::words::{is_keyword, is_word};

/// Whether no level may have this name.
pub fn is_unfit(name: &[u8]) -> bool
    ensures { result ≡ (not (is_word name.now) || (is_among name.now design_keywords || nat_lt MOST_NAME_BYTES (length name.now))) }
{
    !is_word(name) || is_keyword(name) || name.len() > MOST_NAME_BYTES
}
