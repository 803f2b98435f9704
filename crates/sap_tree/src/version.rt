//! Versions of the language.

/// The version of the language in which a design is written. The second has the commands `then` and
/// `case`, and these two words as keywords.
#[derive(Clone, Copy, PartialEq, Eq, Debug)]
pub enum Version {
    One,
    Two,
}
