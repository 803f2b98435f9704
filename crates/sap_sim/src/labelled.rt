//! The rows of the labelled run of a design, and what a stimulus is to it.

pub mod stimulus;

ghost use Rattle.std.specs.Prelude.{◌≡◌};
ghost use Rattle.sap_tree.specs.Designs.{design_of};
ghost use Rattle.sap_interface.specs.Designs.{StandsForDesign};
ghost use Rattle.sap_sim.specs.Fields.{fields_of};
ghost use Rattle.sap_sim.specs.Labelled.Fields.{design_fields};
ghost use Rattle.sap_sim.specs.Labelled.RunOf.{GivesRuns};
ghost use Rattle.sap_sim.specs.Labelled.Examples.{AddsOne};

use sap_lattice::Lattice;
use sap_net::netlist::Netlist;
use sap_stim::stimulus_fits;
use sap_tree::design::Design;
use sap_tree::whole::design_is_whole;

/// The rows that a netlist gives on a stimulus are those of each design for which it stands; lines have the same fields to both.
pub fn rows_of_run(lattice: &Lattice, design: &Design, netlist: &Netlist)
    requires stands { StandsForDesign lattice.now (design_of design.now) netlist.now }
    ensures runs { GivesRuns lattice.now (design_of design.now) netlist.now }
    ensures fields { fields_of lattice.now netlist.now ≡ design_fields (design_of design.now) }
{
    design_is_whole(design);
    netlist.rules();
    lattice.lawful();
    stimulus_fits();
}

/// The rows of a small design on two cycles, worked out.
pub fn worked_rows()
    ensures adds_one { AddsOne }
{}
