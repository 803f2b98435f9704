//! What explains the module of a system.

ghost use Rattle.std.specs.Prelude.{◌≡◌, ◌++◌, IfOk, OnOk};
ghost use Rattle.sap_net.specs.Net.{Net};
ghost use Rattle.sap_vtext.specs.Modules.{IsModule};
ghost use Rattle.sap_system.specs.Rules.{part_names};
ghost use Rattle.sap_linker.specs.Given.{design_names, designs_of};
ghost use Rattle.sap_explain.specs.Explained.{IsExplained};
ghost use Rattle.sap_explain.specs.Explanation.{part_comments, system_explanation};

use crate::explain::push_design;
use crate::laws::{comments_change_nothing, levels_are_comments, parts_are_comments};
use crate::level::push_levels;
use sap_desk::Bytes;
use sap_lattice::lattice::Lattice;
use sap_linker::LinkedPart;
use sap_system::SystemFile;
use std::alloc::{AllocError, Global};

// Appends the lines of the parts of a system.
fn push_parts(out: &mut Vec<u8>, parts: &[LinkedPart<'_>]) -> Result<(), AllocError>
    ensures { OnOk result (out.new.items ≡ out.old.items ++ part_comments (designs_of parts.now)) }
{
    for part in parts {
        push_design(out, part.name.as_bytes(), part.checked)?;
    }
    Ok(())
}

/// The text of a system's module after the lines that explain it.
pub fn explained_system(
    alloc: Global,
    lattice: &Lattice,
    system: &SystemFile,
    parts: &[LinkedPart<'_>],
    plain: &Bytes,
) -> Result<Bytes, AllocError>
    requires { design_names (designs_of parts.now) ≡ part_names system.now.parts }
    ensures text { IfOk result (λ text. text ≡ system_explanation lattice.now (designs_of parts.now) ++ plain.now) }
    ensures module { IfOk result (λ text. (net : Net) → IsModule plain.now net → IsExplained (system_explanation lattice.now (designs_of parts.now)) text net) }
{
    comments_change_nothing();
    levels_are_comments(lattice);
    system.kept();
    parts_are_comments(parts);
    let mut out = Vec::new(alloc);
    push_levels(&mut out, lattice)?;
    push_parts(&mut out, parts)?;
    out.extend_from_slice(plain.as_slice())?;
    Ok(Bytes::new(out))
}
