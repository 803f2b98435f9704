//! Words that the design grammar writes out.

ghost use Rattle.std.specs.Prelude.{◌≡◌, map};
ghost use Rattle.sap_tree.specs.Words.{first_words, keywords, word_text};
ghost use Rattle.sap_tree.specs.declared.version.Version.TheVariants as version;

/// A word that is no name: a keyword, or one of a text's first line. `Sapper` and `Two` are words as the
/// first two tokens of a text alone: the name `sapper`, and behind it the number `2`.
#[derive(Clone, Copy, PartialEq, Eq, Debug)]
pub enum Word {
    Input,
    Reg,
    Mem,
    State,
    Dynamic,
    Enforced,
    Under,
    If,
    Else,
    Goto,
    Fall,
    SetTag,
    Otherwise,
    Tag,
    Level,
    Join,
    Zext,
    Then,
    Case,
    Sapper,
    Two,
}

/// The keywords of version 1 are the words that every version has, as they are spelled.
pub fn words_are_keywords()
    ensures { keywords version.One ≡ map word_text first_words }
{}
