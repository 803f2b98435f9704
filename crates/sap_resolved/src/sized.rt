//! The program of a design without faults of names and widths: its names fit their places, and its widths fit.
//!
//! Each law stands on an empty function, whose clause a caller in another crate has by calling it.

pub mod examples;

ghost use Rattle.sap_resolved.specs.Sized.Sound.{NamesFit, SizesFit, WidthsInRange};

/// Each name is that of an entity of the kind that its place asks for, and each written level is one of the lattice.
pub fn names_fit()
    ensures { NamesFit }
{}

/// The widths of expressions fit where they stand, and one another; registers start with numbers that fit them.
pub fn sizes_fit()
    ensures { SizesFit }
{}

/// Where the tree is one of the grammar: all widths are from 1 to 64, slices are within what they are taken from, and
/// memories have depths that a memory can have.
pub fn widths_in_range()
    ensures { WidthsInRange }
{}
