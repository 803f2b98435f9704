//! The variables of a wave that rows show.

ghost use Rattle.std.specs.Prelude.{◌≡◌, ◌++◌, ℕ, List, IfOk, OnOk};
ghost use Rattle.sap_maps.specs.Scope.{find};
ghost use Rattle.sap_net.specs.NameMaps.{Indexes};
ghost use Rattle.sap_net.specs.PortNames.{is_number, tag_name, value_of};
ghost use Rattle.sap_net.specs.Shown.{shown_among, shown_by};
ghost use Rattle.sap_sim.specs.Numbers.{place};
ghost use Rattle.sap_wave.specs.Waves.{names_of};
ghost use Rattle.sap_wave_rows.specs.Places.{value_places, tag_places};
ghost use Rattle.sap_wave_rows.specs.Rows.{widths_of};

use sap_net::name_map::{at_name, index};
use sap_net::parts::Name;
use sap_net::port_names::behind_v;
use sap_wave::Variable;
use std::alloc::{AllocError, Global};
use std::collections::HashMap;

/// The places of variables by their names.
fn index_variables(
    alloc: Global,
    variables: &[Variable],
) -> Result<HashMap<Vec<u8>, usize>, AllocError>
    ensures { IfOk result (λ places. Indexes places (names_of variables.now)) }
{
    let mut places = HashMap::new(alloc);
    for (k, variable) in variables.iter().enumerate() {
        index(&mut places, alloc, &variable.name, k)?;
    }
    Ok(places)
}

/// The place of the variable of a name; how many variables there are, where none has it.
fn place(places: &HashMap<Vec<u8>, usize>, variables: &[Variable], name: &[u8]) -> usize
    requires { Indexes places.now (names_of variables.now) }
    ensures { result ≡ place (names_of variables.now) name.now }
{
    at_name(places, name).unwrap_or(variables.len())
}

/// Whether there is a variable at a place, of the width of tags.
fn is_wide(variables: &[Variable], at: usize, tag: u32) -> bool
    ensures { (name : List ℕ) → at ≡ place (names_of variables.now) name → result ≡ is_number tag (find (widths_of variables.now) name) }
{
    match variables.get(at) {
        Some(variable) => variable.width == tag,
        None => false,
    }
}

/// `t_x`.
fn tag_name(alloc: Global, x: &str) -> Result<Vec<u8>, AllocError>
    ensures { IfOk result (λ name. name.items ≡ tag_name x.now) }
{
    let mut name = Vec::new(alloc);
    name.extend_from_slice(b"t_")?;
    name.extend_from_slice(x.as_bytes())?;
    Ok(name)
}

/// What rows show: the names, and the places of the variables of their numbers and of their tags.
#[derive(Drop)]
pub struct Shown {
    pub names: Vec<Name>,
    pub values: Vec<usize>,
    pub tags: Vec<usize>,
}

/// Adds x, where the name is `v_x` and a variable `t_x` has the width of tags.
fn push_shown(
    shown: &mut Shown,
    alloc: Global,
    places: &HashMap<Vec<u8>, usize>,
    variables: &[Variable],
    tag: u32,
    name: &Name,
) -> Result<(), AllocError>
    requires { Indexes places.now (names_of variables.now) }
    ensures names { OnOk result (shown.new.names.items ≡ shown.old.names.items ++ shown_by tag (widths_of variables.now) (value_of name.now)) }
    ensures values { OnOk result (shown.new.values.items ≡ shown.old.values.items ++ value_places variables.now (shown_by tag (widths_of variables.now) (value_of name.now))) }
    ensures tags { OnOk result (shown.new.tags.items ≡ shown.old.tags.items ++ tag_places variables.now (shown_by tag (widths_of variables.now) (value_of name.now))) }
{
    let Some(x) = behind_v(name.as_str()) else {
        return Ok(());
    };
    let tag_place = place(places, variables, &tag_name(alloc, x)?);
    if !is_wide(variables, tag_place, tag) {
        return Ok(());
    }
    let label = String::from_str(alloc, x)?;
    shown.names.push(Name::new(label))?;
    shown
        .values
        .push(place(places, variables, name.as_bytes()))?;
    shown.tags.push(tag_place)?;
    Ok(())
}

/// What rows show of variables, their tags of a width.
pub fn shown_of(alloc: Global, variables: &[Variable], tag: u32) -> Result<Shown, AllocError>
    ensures names { IfOk result (λ s. s.names.items ≡ shown_among tag (widths_of variables.now) (names_of variables.now)) }
    ensures values { IfOk result (λ s. s.values.items ≡ value_places variables.now s.names.items) }
    ensures tags { IfOk result (λ s. s.tags.items ≡ tag_places variables.now s.names.items) }
{
    let places = index_variables(alloc, variables)?;
    let mut shown = Shown {
        names: Vec::new(alloc),
        values: Vec::new(alloc),
        tags: Vec::new(alloc),
    };
    for variable in variables {
        push_shown(&mut shown, alloc, &places, variables, tag, &variable.name)?;
    }
    Ok(shown)
}
