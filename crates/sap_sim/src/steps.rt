//! What a cycle is given, and what is seen of it.

ghost use Rattle.std.specs.Prelude.{◌≡◌, ◌<◌, Option, All, map, length};
ghost use Rattle.sap_maps.specs.Maps.{Valuation};
ghost use Rattle.sap_cycle.specs.Running.{Shows, seen, value_names};
ghost use Rattle.sap_sim.specs.Layout.{number_from, seen_at, source_place};

use crate::shown::Shown;
use crate::sources::Source;
use sap_cycle::runner::{Place, Runner};
use sap_lattice::Lattice;
use sap_stim::Short;
use sap_stream::Tagged;

/// Where the numbers of inputs come from, what rows show, and the texts of levels in rows.
#[derive(Drop)]
pub struct Plan {
    pub sources: Vec<Source>,
    pub shown: Shown,
    pub levels: Vec<Short>,
}

/// Takes the numbers that a line gives the inputs, in place of others.
pub fn take_numbers(lattice: &Lattice, sources: &[Source], line: &[Tagged], numbers: &mut [u64])
    requires places { All (λ s. source_place s < length line.now) sources.now }
    requires count { length numbers.old ≡ length sources.now }
    ensures { numbers.new ≡ map (number_from lattice.now line.now) sources.now }
{
    for k in 0..sources.len() {
        numbers[k] = number(lattice, sources[k], line);
    }
}

fn number(lattice: &Lattice, source: Source, line: &[Tagged]) -> u64
    requires { source_place source < length line.now }
    ensures { result ≡ number_from lattice.now line.now source }
{
    match source {
        Source::Value(place) => line[place].number(),
        Source::Code(place) => lattice.code(line[place].level()),
    }
}

/// Takes the numbers at places of a runner, in place of others.
pub fn take_seen(runner: &Runner, places: &[Place], numbers: &mut [u64])
    requires places { All (λ k. k < length (value_names runner.now.net)) places.now }
    requires count { length numbers.old ≡ length places.now }
    ensures count { length numbers.new ≡ length places.now }
    ensures seen { (cycle : Option Valuation) → Shows runner.now cycle → numbers.new ≡ seen_at runner.now.net (seen runner.now.net cycle) places.now }
{
    for k in 0..places.len() {
        numbers[k] = runner.at(places[k]);
    }
}
