//! System files, and wires, worked out by hand from the rules.

ghost use Rattle.sap_system.specs.Examples.{TwoParts, NoDocument, NoWires, ThirdKey, OneText, NoParts, NineParts, KeywordName, UnderscoreName, NameTwice};
ghost use Rattle.sap_system.specs.WireExamples.{FeedEachOther, FromInput, AllWrong, ToRegister, FedTwice, Narrower, UnknownLevel};

/// A file and the system that it lists.
pub fn worked_files()
    ensures { TwoParts }
{}

/// Files and the first rule that each breaks.
pub fn worked_faults()
    ensures no_document { NoDocument }
    ensures no_wires { NoWires }
    ensures third_key { ThirdKey }
    ensures one_text { OneText }
    ensures no_parts { NoParts }
    ensures nine_parts { NineParts }
    ensures keyword_name { KeywordName }
    ensures underscore_name { UnderscoreName }
    ensures name_twice { NameTwice }
{}

/// Wires that break no rule, and the first rule that each of others breaks.
pub fn worked_wires()
    ensures kept { FeedEachOther }
    ensures from_input { FromInput }
    ensures all_wrong { AllWrong }
    ensures to_register { ToRegister }
    ensures fed_twice { FedTwice }
    ensures narrower { Narrower }
    ensures unknown_level { UnknownLevel }
{}
