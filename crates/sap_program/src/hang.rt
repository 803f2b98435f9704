//! What hangs on a command.

use std::marker::Model;

/// Entities, by number, in rising order: what hangs on a command.
#[derive(Drop)]
pub struct Hang {
    numbers: Vec<usize>,
}

impl Model for Hang {
    ghost use Rattle.std.specs.Prelude.{ℕ, List, IsTrue};

    ghost Value = { List ℕ };

    ghost use Rattle.sap_program.specs.Hangs.{rises};

    ghost view = { λ h. h.numbers.items };

    ghost invariant = { λ h. IsTrue (rises h.numbers.items) };
}

impl Hang {
    ghost use Rattle.std.specs.Prelude.{◌≡◌, IsTrue};
    ghost use Rattle.sap_program.specs.Hangs.{rises};

    /// These entities.
    pub fn new(numbers: Vec<usize>) -> Hang
        requires { IsTrue (rises numbers.items) }
        ensures { result ≡ numbers.items }
    {
        Hang { numbers }
    }

    /// The numbers of the entities.
    pub fn numbers(&self) -> &[usize]
        ensures same { result.now ≡ self.now }
        ensures rising { IsTrue (rises self.now) }
    {
        self.numbers.as_slice()
    }
}
