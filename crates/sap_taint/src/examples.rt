//! Small netlists: the names of their tags, their taint, cycles that agree or don't, and two that carry the taint of another.

ghost use Rattle.sap_taint.specs.Carries.{CarriesTaint};
ghost use Rattle.sap_taint.specs.Examples.{handing_on, handing_tags_on, storing, storing_tags};
ghost use Rattle.sap_taint.specs.Comparing.{ComparedTaint};
ghost use Rattle.sap_taint.specs.Worked.{WorkedNames, WorkedClashes, WorkedTags, HandsOn, Stores, AreNetlists};

/// What tags are named, and where their names clash.
pub fn worked_clashes()
    ensures names { WorkedNames }
    ensures clashes { WorkedClashes }
{}

/// The tags of right sides and of writes, and runs of two cycles.
pub fn worked_taint()
    ensures tags { WorkedTags }
    ensures hands_on { HandsOn }
    ensures stores { Stores }
    ensures netlists { AreNetlists }
{}

/// Netlists with tags, which carry the taint of those without: by one wire, and with a memory by helping wires.
pub fn worked_tagging()
    ensures hands_on { CarriesTaint 1 handing_on handing_tags_on }
    ensures stores { CarriesTaint 2 storing storing_tags }
{}

/// Cycles with tags that differ in high things alone agree at low, and those that differ in a low one don't.
pub fn compared_taint()
    ensures { ComparedTaint }
{}
