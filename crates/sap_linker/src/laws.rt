//! What holds of the modules of systems.

ghost use Rattle.sap_linker.specs.Laws.{FileNamesFit, NamedPartsFit, SmallNetsAreModules};

/// Names that parts may have stay apart in the module of the system, and so do those that a system file gives.
pub fn file_names_fit()
    ensures named { NamedPartsFit }
    ensures listed { FileNamesFit }
{}

/// What comes of the netlist of a system, made small without needless wires, is the module of the system.
pub fn small_nets_are_modules()
    ensures { SmallNetsAreModules }
{
    sap_linked_small::laws::small_nets_stand();
    sap_linked_agree::laws::systems_agree();
    sap_linked_agree::laws::modules_agree();
    sap_linked_agree::laws::modules_have_one_run()
}
