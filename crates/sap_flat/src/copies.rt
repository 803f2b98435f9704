//! Copies of declarations and actions.

ghost use Rattle.std.specs.Prelude.{◌≡◌, ◌++◌, IfOk};
ghost use Rattle.sap_ir.specs.Calcs.{action_of};

use sap_ir::guarded::{Act, MemoryVariable, Var};
use std::alloc::{AllocError, Global};

pub fn act(alloc: Global, act: &Act) -> Result<Act, AllocError>
    ensures { IfOk result (λ a. action_of a ≡ action_of act.now) }
{
    match act {
        Act::Set(name, value) => {
            let name = name.copy(alloc)?;
            let value = value.copy(alloc)?;
            Ok(Act::Set(name, value))
        }
        Act::Put {
            memory,
            index,
            value,
        } => {
            let memory = memory.copy(alloc)?;
            let index = index.copy(alloc)?;
            let value = value.copy(alloc)?;
            Ok(Act::Put {
                memory,
                index,
                value,
            })
        }
    }
}

pub fn variables(alloc: Global, variables: &[Var]) -> Result<Vec<Var>, AllocError>
    ensures { IfOk result (λ v. v.items ≡ variables.now) }
{
    let mut copies = Vec::new(alloc);
    for variable in variables {
        let name = variable.name.copy(alloc)?;
        copies.push(Var {
            name,
            width: variable.width,
            start: variable.start,
        })?;
    }
    Ok(copies)
}

pub fn stores(alloc: Global, stores: &[MemoryVariable]) -> Result<Vec<MemoryVariable>, AllocError>
    ensures { IfOk result (λ v. v.items ≡ stores.now) }
{
    let mut copies = Vec::new(alloc);
    for store in stores {
        let name = store.name.copy(alloc)?;
        copies.push(MemoryVariable {
            name,
            width: store.width,
            depth: store.depth,
            start: store.start,
        })?;
    }
    Ok(copies)
}

/// The second list behind the first.
pub fn joined(mut variables: Vec<Var>, mut others: Vec<Var>) -> Result<Vec<Var>, AllocError>
    ensures { IfOk result (λ v. v.items ≡ variables.items ++ others.items) }
{
    variables.append(&mut others)?;
    Ok(variables)
}
