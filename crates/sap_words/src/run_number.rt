//! The number N of a command, as a type.

ghost use Rattle.std.specs.Prelude.{◌≤◌};

/// The number of a generated run, or of slices of the machine.
#[derive(Clone, Copy, Debug)]
pub struct RunNumber {
    pub value: u32,
    ghost some: { 1 ≤ value },
    ghost within: { value ≤ 1000 },
}
