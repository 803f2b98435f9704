//! The codes of module faults.

ghost use Rattle.std.specs.Prelude.{◌≡◌};
ghost use Rattle.sap_vjudge.specs.FirstFault.{number};

/// The code of a fault of a module's tree.
#[derive(Clone, Copy)]
pub enum Code {
    /// A name is declared or driven twice.
    V3,
    /// A name is used before it is declared, or a wire before it is assigned.
    V4,
    /// A width is out of range, or widths don't fit together.
    V5,
    /// A wire is never assigned, or a register or memory lacks its `initial` or its `always`.
    V6,
    /// A name is used as what it isn't, or the depth, the `for` or the index of a memory is wrong.
    V7,
}

impl Code {
    /// The number of the code.
    pub fn number(self) -> u8
        ensures { result ≡ number self }
    {
        match self {
            Code::V3 => 3,
            Code::V4 => 4,
            Code::V5 => 5,
            Code::V6 => 6,
            Code::V7 => 7,
        }
    }
}
