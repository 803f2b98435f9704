//! The canonical text of a design.
#![tactic(auto)]

mod command;
mod expression;
pub mod law;
mod state;
mod words;

ghost use Rattle.std.specs.Prelude.{◌≡◌, IfOk};
ghost use Rattle.sap_show.specs.Canonical.{canonical_text};
ghost use Rattle.sap_show.specs.Reading.{ReadsAs, IsTextOfSame};
ghost use Rattle.sap_tree.specs.Designs.{design_of};

use sap_desk::Bytes;
use sap_tree::design::Design;
use sap_tree::whole::design_is_whole;
use std::alloc::{AllocError, Global};

/// The canonical text of the design: ASCII, the line `sapper 2;` in the second version, a declaration a line, then the states, each line with its LF.
pub fn show(alloc: Global, design: &Design) -> Result<Bytes, AllocError>
    ensures canonical { IfOk result (λ text. text ≡ canonical_text (design_of design.now)) }
    ensures reads_back { IfOk result (λ text. ReadsAs text (design_of design.now)) }
    ensures parsed_again { IfOk result (λ text. IsTextOfSame text (design_of design.now)) }
{
    design_is_whole(design);
    let mut out = Vec::new(alloc);
    state::first_line(&mut out, design.version)?;
    state::declarations(&mut out, design.declarations.as_slice())?;
    let none: [u8; 0] = [];
    state::states(alloc, &mut out, &none, design.states.as_slice())?;
    Ok(Bytes::new(out))
}
