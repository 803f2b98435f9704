//! The faults of a module.

ghost use Rattle.std.specs.Prelude.{◌≡◌, IfSome, is_some};
ghost use Rattle.sap_help.specs.Codes.{IsTextOf, is_one_of, module_codes};

use crate::text::text_of;

const V1: &str = "V1: a byte begins no token, or a number is over 2^64 - 1.

The place is that byte, or where the number begins, with its width if it has one.

Example:

    assign n0 = v_a % v_b;

Cure: Write it with the signs of the subset; `docs/MODULES.md` has them.
";

const V2: &str = "V2: a token stands where none of its kind can stand, or the text ends too early.

The place is the first token after which no module can begin with the tokens so far, or the end of
the text.

Example:

    assign n0 = v_a + v_b + v_c;

Cure: A right side has one operator: give each step a wire of its own. Nothing but the items of the
subset may stand in a module.
";

const V3: &str = "V3: something is given twice.

The place is the later name: a declaration, or the target of a second `assign`, `initial` or
`always`; of a second `integer i;` it is the word `integer`.

Example:

    wire [7:0] n0;
    assign n0 = 8'd1;
    assign n0 = 8'd2;

Cure: Leave one out, or give it another name.
";

const V4: &str = "V4: a name is used before it is declared, or a wire before it is assigned.

The place is the use. `for` needs `integer i;` before it.

Example:

    wire [7:0] n0;
    wire [7:0] n1;
    assign n0 = n1;
    assign n1 = 8'd1;

Cure: Move the declaration and the `assign` up, above each use. A ring of wires has no order and is
no module.
";

const V5: &str = "V5: a width is out of range, or widths don't fit together.

The place is the number of the range, the constant, the target of the item, or the name of a slice.
Widths are 1 to 64.

Example:

    wire [3:0] n0;
    assign n0 = v_a;

Cure: With `v_a` of 8 bits declare `n0` as `[7:0]`, or take a slice, `v_a[3:0]`; widen with `{4'd0,
n0}`.
";

const V6: &str =
    "V6: a wire is never assigned, or a register or memory lacks its `initial` or its `always`.

The place is the declared name.

Example:

    reg [7:0] r;
    initial r = 8'd0;

Cure: Give it the item that is missing: here `always @(posedge clk) r <= ..;`.
";

const V7: &str = "V7: a name is used as what it isn't, or a memory wrongly.

The place is a name of another kind than its place asks for, the number of a depth that isn't a
power of two from 2 to 4096 or of a `for` that isn't that depth, or an index of the wrong width.

Example:

    assign v_a = 8'd1;

Cure: An input gets its number from outside: assign to a wire. The number behind `0:` of a memory is
its depth less 1: `[0:3]` is one of 4 cells, with an index of 2 bits.
";

const X1: &str = "X1: a name of the module is in the way of a tag.

`taint` names the tag of `v_x` `t_x`, and that of any other name `z` `t_z`. Told is the first declared
name whose tag would have a name that the module has, its own name included, or that an earlier
tag has.

Example:

    wire [7:0] n0;
    assign n0 = v_a;
    wire [7:0] t_n0;
    assign t_n0 = v_b;

Cure: Give the name that is in the way another. A module that `compile` or `taint` wrote has tags
already.
";

// Each code with its text.
static MODULE_FAULTS: [(&str, &str); 8] = [
    ("V1", V1),
    ("V2", V2),
    ("V3", V3),
    ("V4", V4),
    ("V5", V5),
    ("V6", V6),
    ("V7", V7),
    ("X1", X1),
];

pub(crate) fn module_fault(code: &str) -> Option<&'static str>
    ensures known { is_some result ≡ is_one_of module_codes code.now }
    ensures begins { IfSome result (λ text. IsTextOf code.now text.now) }
{
    text_of(&MODULE_FAULTS, code)
}
