//! The text of a module: its tokens, its grammar, its faults, and the netlist that it stands for.
#![tactic(auto)]

ghost use Rattle.sap_vtext.specs.Modules.{OneModule};

/// A text is at most one module.
pub fn one_module()
    ensures { OneModule }
{}
