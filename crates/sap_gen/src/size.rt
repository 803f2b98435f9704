//! How many registers and states a generated design has.

ghost use Rattle.std.specs.Prelude.{◌≡◌, ◌<◌, ◌≤◌};
ghost use Rattle.sap_gen.specs.Design.{register_count, state_count};

/// The registers and the states of a generated design.
#[derive(Clone, Copy, Debug)]
pub(crate) struct Size {
    pub registers: u32,
    pub states: u32,
    ghost some_register: { 0 < registers },
    ghost few_registers: { registers ≤ 61 },
    ghost some_state: { 0 < states },
    ghost few_states: { states ≤ 31 },
}

/// Those of the design of a number.
pub(crate) fn size_of(n: u32) -> Size
    ensures registers { result.registers ≡ register_count n }
    ensures states { result.states ≡ state_count n }
{
    Size {
        registers: 2 + n % 60,
        states: 1 + n % 31,
    }
}
