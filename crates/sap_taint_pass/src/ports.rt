//! Names, ports and inputs with their tags.

ghost use Rattle.std.specs.Prelude.{◌≡◌, IfOk};
ghost use Rattle.sap_taint.specs.TagNames.{with_tags};
ghost use Rattle.sap_taint.specs.TaggedForm as form;

use crate::names::tag_name;
use sap_net::parts::{Input, Name, Port};
use std::alloc::{AllocError, Global};

/// Each name with its tag's behind it.
pub(crate) fn names_with_tags(alloc: Global, names: &[Name]) -> Result<Vec<Name>, AllocError>
    ensures { IfOk result (λ made. made.items ≡ with_tags names.now) }
{
    let mut made = Vec::new(alloc);
    for name in names {
        made.push(name.copy(alloc)?)?;
        made.push(tag_name(alloc, name)?)?;
    }
    Ok(made)
}

/// Each port with its tag's behind it.
pub(crate) fn tagged_ports(alloc: Global, ports: &[Port]) -> Result<Vec<Port>, AllocError>
    ensures { IfOk result (λ made. made.items ≡ form.tagged_ports ports.now) }
{
    let mut made = Vec::new(alloc);
    for port in ports {
        let kind = port.kind;
        made.push(Port {
            name: port.name.copy(alloc)?,
            kind,
        })?;
        made.push(Port {
            name: tag_name(alloc, &port.name)?,
            kind,
        })?;
    }
    Ok(made)
}

/// Each input with its tag's behind it.
pub(crate) fn tagged_inputs(
    alloc: Global,
    width: u32,
    inputs: &[Input],
) -> Result<Vec<Input>, AllocError>
    ensures { IfOk result (λ made. made.items ≡ form.tagged_inputs width inputs.now) }
{
    let mut made = Vec::new(alloc);
    for input in inputs {
        made.push(Input {
            name: input.name.copy(alloc)?,
            width: input.width,
        })?;
        made.push(Input {
            name: tag_name(alloc, &input.name)?,
            width,
        })?;
    }
    Ok(made)
}
