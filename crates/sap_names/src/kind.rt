//! What a declared name is, and the codes of faults.

/// What a declared name is.
#[derive(Clone, Copy, PartialEq, Eq)]
pub enum EntityKind {
    Input,
    Register,
    Memory,
    State,
}

/// What a declaration says of its name: the width, and of a memory the depth, as they are written.
#[derive(Clone, Copy)]
pub enum Declared {
    Input(u64),
    Register(u64),
    Memory(u64, u64),
    State,
}

/// What a command or an expression uses a name as.
#[derive(Clone, Copy)]
pub enum Use {
    /// Assigned plain.
    Assigned,
    /// Read, written or retagged with an index.
    Indexed,
    /// Read plain.
    Read,
    /// The target of a `goto`.
    Entered,
    /// The plain target of a `setTag`.
    Retagged,
}

/// How an operator's width comes from those of its operands.
#[derive(Clone, Copy)]
pub enum Family {
    /// Operands and result have one width.
    Arithmetic,
    /// The result has the left operand's width.
    Shift,
    /// The operands have one width, and the result has one bit.
    Comparison,
}

/// The code of a fault of names and widths, E3 to E9, or of shape.
#[derive(Clone, Copy, Debug)]
pub enum Code {
    /// A name is declared twice.
    E3,
    /// A used name is declared nowhere.
    E4,
    /// A used name is of the wrong kind.
    E5,
    /// A name of a level is no level of the lattice.
    E6,
    /// A width is out of range or missing, or two widths differ that must be the same.
    E7,
    /// A number is too large for its width.
    E8,
    /// The declared tag isn't at or above the authority.
    E9,
    /// A body doesn't end each of its ways with one transfer.
    E10,
    /// A `goto` names no state of its group.
    E11,
    /// A `fall` stands in a state without children.
    E12,
    /// A memory may be written twice in one cycle.
    E14,
    /// A handler can never run.
    E15,
    /// A `setTag` is on a dynamic entity.
    E16,
    /// A `setTag` is on the state in whose body it stands, or on one above or below it.
    E17,
}
