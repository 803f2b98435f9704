//! Small programs: which steps their cycles come to.

ghost use Rattle.sap_secure.specs.Once.Examples.{OneBranch, WrittenTwice, AfterRefusal, AfterFall};

/// The steps of a branch, of a handler and of a child's body, and two writes to one memory, worked out.
pub fn worked_steps()
    ensures one_branch { OneBranch }
    ensures written_twice { WrittenTwice }
    ensures after_refusal { AfterRefusal }
    ensures after_fall { AfterFall }
{}
