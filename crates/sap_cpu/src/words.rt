//! The words of a user's program.

ghost use Rattle.std.specs.Prelude.{◌≡◌, length};

use std::marker::Model;

/// The sixteen words of a program, seen as a list of numbers.
#[derive(Drop)]
pub struct Words {
    words: [u16; 16],
}

impl Model for Words {
    ghost use Rattle.std.specs.Prelude.{List, ℕ};

    ghost Value = { List ℕ };

    ghost view = { λ w. w.words };
}

impl Words {
    pub fn new(words: [u16; 16]) -> Words
        ensures { result ≡ words }
    {
        Words { words }
    }

    pub fn as_array(&self) -> &[u16; 16]
        ensures words { result.now ≡ self.now }
        ensures size { length result.now ≡ 16 }
    {
        &self.words
    }
}
