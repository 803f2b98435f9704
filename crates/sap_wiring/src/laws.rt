//! What holds of the wires that texts stand for.

ghost use Rattle.sap_wiring.specs.Laws.{FileNamesServe, OneWiring, WiresOfTextsFit};

/// The names that a system file gives to parts serve `wire_up`.
pub fn file_names_serve()
    ensures { FileNamesServe }
{}

/// Texts stand for at most one list of wires.
pub fn one_wiring()
    ensures { OneWiring }
{}

/// Where texts keep the rules, the wires that they stand for break no rule of the system of the parts' designs.
pub fn wires_of_texts_fit()
    ensures { WiresOfTextsFit }
{}
