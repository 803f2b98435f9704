//! Names of registers and wires.

ghost use Rattle.std.specs.Prelude.{◌≡◌, ◌++◌, OnOk, length};
ghost use Rattle.sap_explain.specs.Explanation.{name_in};

use std::alloc::AllocError;

/// Appends a name of a module: a letter and `_`, the name of the part if there is one, and the rest.
#[tactic(auto, using(crate::proofs::NamesIn::names))]
pub(crate) fn push_name(
    out: &mut Vec<u8>,
    part: &[u8],
    letter: &[u8],
    rest: &[u8],
) -> Result<(), AllocError>
    requires { length letter.now ≡ 2 }
    ensures { OnOk result (out.new.items ≡ out.old.items ++ name_in part.now (letter.now ++ rest.now)) }
{
    out.extend_from_slice(letter)?;
    if part.is_empty() {
        out.extend_from_slice(rest)
    } else {
        out.extend_from_slice(part)?;
        out.extend_from_slice(b"_")?;
        out.extend_from_slice(rest)
    }
}
