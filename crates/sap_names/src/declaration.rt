//! Kinds and widths of declared names.

ghost use Rattle.std.specs.Prelude.{◌≡◌};
ghost use Rattle.sap_names.specs.Entities.{declared_width, kind_of_declared};

use crate::kind::{Declared, EntityKind};

impl Declared {
    pub fn kind(self) -> EntityKind
        ensures { result ≡ kind_of_declared self }
    {
        match self {
            Declared::Input(_) => EntityKind::Input,
            Declared::Register(_) => EntityKind::Register,
            Declared::Memory(_, _) => EntityKind::Memory,
            Declared::State => EntityKind::State,
        }
    }

    /// The declared width; 0 for a state.
    pub fn width(self) -> u64
        ensures { result ≡ declared_width self }
    {
        match self {
            Declared::Input(width) => width,
            Declared::Register(width) => width,
            Declared::Memory(width, _) => width,
            Declared::State => 0,
        }
    }
}
