//! What a stimulus is to a design.

ghost use Rattle.std.specs.Prelude.{◌≡◌, ◌<◌, ◌^◌, All, Some, IfOk, length, option_map, slice_get};
ghost use Rattle.sap_check.specs.Checked.{levels_in, tree_in};
ghost use Rattle.sap_stim.specs.Line.{IsSized};
ghost use Rattle.sap_sim.specs.Labelled.Fields.{design_fields, field_of};
ghost use Rattle.sap_sim.specs.Labelled.RunOf.{read_for};

use sap_check::Checked;
use sap_names::kind::Declared;
use sap_names::table::Names;
use sap_stim::{Field, Fields, Parsed, parse_stream};
use std::alloc::{AllocError, Global};

// The field of an entity, where it is an input.
fn field_of(names: &Names, entity: u32) -> Option<Field>
    requires { entity < length names.now }
    ensures { option_map (λ e. field_of e.what) (slice_get names.now entity) ≡ Some result }
{
    match names.entity(entity).what {
        Declared::Input(_) => Some(Field::Tagged(names.width(entity))),
        _ => None,
    }
}

/// The fields of a design.
pub fn design_fields(alloc: Global, checked: &Checked) -> Result<Fields, AllocError>
    ensures fields { IfOk result (λ fields. fields ≡ design_fields (tree_in checked.now)) }
    ensures sized { IfOk result (λ fields. All IsSized fields) }
{
    let names = checked.names();
    names.have_widths();
    let mut fields = Vec::new(alloc);
    for entity in 0..names.count() {
        if let Some(field) = field_of(names, entity) {
            fields.push(field)?;
        }
    }
    Ok(Fields::new(fields))
}

/// What the bytes of a stimulus are to a design.
pub fn read_stimulus(
    alloc: Global,
    checked: &Checked,
    stimulus: &[u8],
) -> Result<Parsed, AllocError>
    requires short { length stimulus.now < 2 ^ 32 }
    ensures { IfOk result (λ parsed. parsed ≡ read_for (levels_in checked.now) (tree_in checked.now) stimulus.now) }
{
    let fields = design_fields(alloc, checked)?;
    parse_stream(alloc, stimulus, &fields, checked.lattice())
}
