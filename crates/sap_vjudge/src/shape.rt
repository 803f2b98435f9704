//! What names are declared as, how they are used, and what sets them.

/// What a name is declared as, with the number of its range, which is one below its width; of a memory with the number
/// of its last cell, which is one below its depth.
#[derive(Clone, Copy)]
pub enum Shape {
    Input(u64),
    Wire(u64),
    Register(u64),
    Memory(u64, u64),
}

/// The kinds of items that set what they name.
#[derive(Clone, Copy)]
pub enum Setting {
    Assign,
    Initial,
    Always,
}

/// How a name is used.
#[derive(Clone, Copy)]
pub enum Manner {
    /// As an operand, or sliced.
    Value,
    /// Indexed on a right side.
    Cell,
    /// As the target of an `assign`.
    Wire,
    /// As the target of a plain `initial` or `always`.
    Register,
    /// As the target of an `initial` or `always` with an index.
    Memory,
}
