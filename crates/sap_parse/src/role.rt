//! What the tokens of a design are to the limits.

/// What a token counts as for the limits.
#[derive(Clone, Copy)]
pub enum Role {
    /// It is in no expression, and begins no declaration, state or command.
    Plain,
    /// It begins the declaration of an input.
    Input,
    /// It begins the declaration of a register.
    Register,
    /// It begins the declaration of a memory.
    Memory,
    /// It begins a state at this depth, from 1.
    State(u64),
    /// It begins a command at this depth, from 1.
    Command(u64),
    /// It stands in an expression or a tag expression, and is no bracket.
    Inner,
    /// It is an opening bracket in an expression or a tag expression.
    Opening,
    /// It is a closing bracket in an expression or a tag expression.
    Closing,
}
