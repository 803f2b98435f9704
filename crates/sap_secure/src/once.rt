//! No memory is written twice in a cycle of a well-formed design.
//!
//! The laws stand on functions that do nothing, whose clauses a caller in another crate has by calling them.

pub mod examples;

ghost use Rattle.sap_secure.specs.Once.Once.{DesignsWriteOnce, UnwrittenStaysInDesigns, DesignsChangeOneCell};

use sap_resolved::premises::well_formed_serves;

/// Of all the steps that a cycle of a well-formed design comes to, refused ones too, at most one writes or retags a cell
/// of a memory; so at most one cell of each memory changes, and none where no such step comes.
pub fn written_once()
    ensures steps { DesignsWriteOnce }
    ensures unwritten { UnwrittenStaysInDesigns }
    ensures cells { DesignsChangeOneCell }
{
    well_formed_serves()
}
