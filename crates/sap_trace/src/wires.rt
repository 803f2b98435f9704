//! The wires of check sites.

ghost use Rattle.std.specs.Prelude.{◌≢◌, ◌<◌, None, IfOk, length};
ghost use Rattle.sap_maps.specs.Scope.{find};
ghost use Rattle.sap_net.specs.IsNetlist.{readable};
ghost use Rattle.sap_cycle.specs.Running.{IsPlaceOf, value_names};
ghost use Rattle.sap_net.specs.PortNames.{refused_level_name, refused_name};
ghost use Rattle.sap_trace.specs.Seen.{AreReadable, AreWires};

use sap_cycle::runner::{Place, Runner};
use std::alloc::{AllocError, Global};

/// The places of the two wires of each check site: whether it is refused, and at which level.
#[derive(Drop)]
pub struct Wires {
    pub refused: Vec<Place>,
    pub levels: Vec<Place>,
}

fn place(runner: &Runner, name: &str) -> Place
    requires { find (readable runner.now.net) name.now ≢ None }
    ensures named { IsPlaceOf runner.now.net name.now result }
    ensures within { result < length (value_names runner.now.net) }
{
    match runner.find(name) {
        Some(place) => place,
        None => unreachable!(),
    }
}

fn refused_place(alloc: Global, runner: &Runner, site: u32) -> Result<Place, AllocError>
    requires { find (readable runner.now.net) (refused_name site) ≢ None }
    ensures named { IfOk result (λ k. IsPlaceOf runner.now.net (refused_name site) k) }
    ensures within { IfOk result (λ k. k < length (value_names runner.now.net)) }
{
    let name = format!(in alloc; "c_{site}")?;
    Ok(place(runner, name.as_str()))
}

fn level_place(alloc: Global, runner: &Runner, site: u32) -> Result<Place, AllocError>
    requires { find (readable runner.now.net) (refused_level_name site) ≢ None }
    ensures named { IfOk result (λ k. IsPlaceOf runner.now.net (refused_level_name site) k) }
    ensures within { IfOk result (λ k. k < length (value_names runner.now.net)) }
{
    let name = format!(in alloc; "l_{site}")?;
    Ok(place(runner, name.as_str()))
}

/// Finds the wires of the sites up to a number.
pub(crate) fn wires_of(alloc: Global, runner: &Runner, count: u32) -> Result<Wires, AllocError>
    requires { AreReadable runner.now.net count }
    ensures { IfOk result (λ wires. AreWires runner.now.net count wires) }
{
    let mut refused = Vec::new(alloc);
    let mut levels = Vec::new(alloc);
    for k in 0..count {
        refused.push(refused_place(alloc, runner, k + 1)?)?;
        levels.push(level_place(alloc, runner, k + 1)?)?;
    }
    Ok(Wires { refused, levels })
}
