//! Two machines of one design, stepped together.

ghost use Rattle.std.specs.Prelude.{◌≡◌, ℕ};
ghost use Rattle.sap_meaning.specs.Agree.{InputsAgree, RefusalsAgree};
ghost use Rattle.sap_meaning.specs.State.{InputsFit};
ghost use Rattle.sap_sem.specs.Machine.{program_of, refusals_of};
ghost use Rattle.sap_sem.specs.Pair.Pair.{MachinesAgree, Steps};

use crate::machine::Machine;
use sap_secure::one_cycle;
use sap_stream::inputs::Inputs;

/// Steps two machines of one program, which are over levels of one order.
pub fn step_pair(first: &mut Machine, second: &mut Machine, one: &Inputs, other: &Inputs)
    requires same { program_of first.old ≡ program_of second.old }
    requires one { InputsFit (program_of first.old).world one.now }
    requires other { InputsFit (program_of second.old).world other.now }
    ensures first { Steps first.old one.now first.new }
    ensures second { Steps second.old other.now second.new }
    ensures states { (l : ℕ) → MachinesAgree l first.old second.old → InputsAgree (program_of first.old).world.order l one.now other.now
        → MachinesAgree l first.new second.new }
    ensures refusals { (l : ℕ) → MachinesAgree l first.old second.old → InputsAgree (program_of first.old).world.order l one.now other.now
        → RefusalsAgree (program_of first.old).world.order l (refusals_of first.new) (refusals_of second.new) }
{
    one_cycle();
    first.lawful();
    second.lawful();
    first.step(one);
    second.step(other);
}
