//! What a system file lists.

ghost use Rattle.std.specs.Prelude.{◌≡◌, ◌<◌, Some, length, slice_get};
ghost use Rattle.sap_system.specs.Rules.{KeepsParts};
ghost use Rattle.sap_system.specs.Listing.{listing};

pub use sap_text::name::Name;
use std::marker::Model;

/// A part of a system: its name, and the name of its design's file.
#[derive(Drop)]
pub struct Part {
    pub name: Name,
    pub file: Name,
}

/// The texts of a wire: of the register that it leads from, of the input that it leads to, and of a level, where there
/// is a third.
#[derive(Drop)]
pub struct WireText {
    pub from: Name,
    pub to: Name,
    pub level: Option<Name>,
}

/// A system as its file lists it: parts whose names keep the rules, and wires as they are written.
#[derive(Drop)]
pub struct SystemFile {
    parts: Vec<Part>,
    wires: Vec<WireText>,
}

impl Model for SystemFile {
    ghost use Rattle.sap_system.specs.Listing.{Listing, listing};
    ghost use Rattle.sap_system.specs.Rules.{KeepsParts};

    ghost Value = { Listing };

    ghost view = { λ s. listing s.parts.items s.wires.items };

    ghost invariant = { λ s. KeepsParts s.parts.items };
}

impl SystemFile {
    /// The system of these parts and wires.
    pub(crate) fn new(parts: Vec<Part>, wires: Vec<WireText>) -> SystemFile
        requires { KeepsParts parts.items }
        ensures { result ≡ listing parts.items wires.items }
    {
        SystemFile { parts, wires }
    }

    /// There are 1 to `MOST_PARTS` parts, with names that they may have.
    pub fn kept(&self)
        ensures { KeepsParts self.now.parts }
    {
        let _ = &self.parts;
    }

    pub fn parts(&self) -> &[Part]
        ensures { result.now ≡ self.now.parts }
    {
        self.parts.as_slice()
    }

    /// Takes one part out, by its place from 0.
    pub fn into_part(self, place: usize) -> Part
        requires { place < length self.parts }
        ensures { slice_get self.parts place ≡ Some result }
    {
        let mut parts = self.parts;
        parts.swap_remove(place)
    }

    pub fn wires(&self) -> &[WireText]
        ensures { result.now ≡ self.now.wires }
    {
        self.wires.as_slice()
    }
}
