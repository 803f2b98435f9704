//! The faults of a system file.

ghost use Rattle.std.specs.Prelude.{◌≡◌, IfSome, is_some};
ghost use Rattle.sap_help.specs.Codes.{IsTextOf, is_one_of, system_codes};

use crate::text::text_of;

const K1: &str = "K1: the system file is no TOML document.

Example:

    parts = [[\"p\", \"adder.sapper\"]

Cure: A system file is a TOML document, in UTF-8.
";

const K2: &str = "K2: the system file has another shape.

It has exactly the keys `parts`, an array of `[NAME, FILE]`, and `wires`, an array of `[FROM, TO]` or
`[FROM, TO, LEVEL]`, all strings.

Example:

    parts = [[\"p\", \"adder.sapper\"]]

Cure: Write `wires = []` where there are none.
";

const K3: &str = "K3: there are not 1 to 8 parts.

The number behind the code is how many there are.

Example:

    parts = []
    wires = []

Cure: List the parts, at least one, each with the file of its design.
";

const K4: &str = "K4: a part has no name that it may have.

The number behind the code is the part, from 1. A name is a letter and then letters and digits, at most
40 bytes, no keyword of version 1 and no earlier part's. It has no `_`.

Example:

    parts = [[\"p\", \"one.sapper\"], [\"key_store\", \"two.sapper\"]]
    wires = []

Cure: Call it `keystore`.
";

const K5: &str = "K5: a wire doesn't come from a register of a part.

The number behind the code is the wire, from 1. Its first string is `PART.REGISTER`.

Example:

    wires = [[\"p.a\", \"q.b\"]]

Cure: An input of p can't feed another one. Name a register of it.
";

const K6: &str = "K6: a wire doesn't lead to an input of a part.

The number behind the code is the wire, from 1. Its second string is `PART.INPUT`.

Example:

    wires = [[\"p.x\", \"q.y\"]]

Cure: Name an input of q in place of its register `y`.
";

const K7: &str = "K7: an earlier wire leads to the same input.

The number behind the code is the wire, from 1.

Example:

    wires = [[\"p.x\", \"q.b\"], [\"p.y\", \"q.b\"]]

Cure: An input has one wire at most; one register may feed many inputs.
";

const K8: &str = "K8: the register and the input of a wire differ in width.

The number behind the code is the wire, from 1.

Example, x having 8 bits and b 4:

    wires = [[\"p.x\", \"q.b\"]]

Cure: Give the input the width of the register, and take a slice in the design of q.
";

const K9: &str = "K9: the third string of a wire is no level.

The number behind the code is the wire, from 1. A wire with a level passes what is at or below it, and 0
in place of all else.

Example, in a lattice of `low` and `high`:

    wires = [[\"p.x\", \"q.b\", \"middle\"]]

Cure: Name a level of the lattice.
";

// Each code with its text.
static SYSTEM_FAULTS: [(&str, &str); 9] = [
    ("K1", K1),
    ("K2", K2),
    ("K3", K3),
    ("K4", K4),
    ("K5", K5),
    ("K6", K6),
    ("K7", K7),
    ("K8", K8),
    ("K9", K9),
];

pub(crate) fn system_fault(code: &str) -> Option<&'static str>
    ensures known { is_some result ≡ is_one_of system_codes code.now }
    ensures begins { IfSome result (λ text. IsTextOf code.now text.now) }
{
    text_of(&SYSTEM_FAULTS, code)
}
