//! The row of a machine's state.

ghost use Rattle.std.specs.Prelude.{◌≡◌, ◌++◌, OnOk};
ghost use Rattle.sap_check.specs.Checked.{levels_in, tree_in};
ghost use Rattle.sap_interface.specs.Designs.{named_of};
ghost use Rattle.sap_resolved.specs.Fill as resolve;
ghost use Rattle.sap_sim.specs.Labelled.LabelledRows.{labelled_row};
ghost use Rattle.sap_sem.specs.Machine.{program_of, state_of};

use sap_check::Checked;
use sap_sem::machine::Machine;
use sap_stim::rows;
use std::alloc::{AllocError, Global};

/// Appends the row of a cycle that ended in the machine's state. The machine is that of the design.
pub(crate) fn push_row(
    out: &mut Vec<u8>,
    alloc: Global,
    checked: &Checked,
    machine: &Machine,
    cycle: u32,
) -> Result<(), AllocError>
    requires program { program_of machine.now ≡ resolve.program_of (levels_in checked.now) (tree_in checked.now) }
    ensures { OnOk result (out.new.items ≡ out.old.items ++ labelled_row (levels_in checked.now) (named_of (levels_in checked.now) (tree_in checked.now)) cycle (state_of machine.now)) }
{
    let lattice = checked.lattice();
    lattice.lawful();
    let mut names = Vec::new(alloc);
    let mut values = Vec::new(alloc);
    let mut tags = Vec::new(alloc);
    for entity in 0..checked.entity_count() {
        if machine.is_register(entity) {
            let (value, level) = machine.value(entity);
            names.push(checked.entity(entity).copy(alloc)?)?;
            values.push(value)?;
            tags.push(lattice.code(level))?;
        }
    }
    rows::push_row(out, u64::from(cycle), &names, &values, &tags, lattice)
}
