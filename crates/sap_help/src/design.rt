//! The faults of a design.

ghost use Rattle.std.specs.Prelude.{◌≡◌, IfSome, is_some};
ghost use Rattle.sap_help.specs.Codes.{IsTextOf, is_one_of, design_codes};

use crate::text::text_of;

const E1: &str = "E1: a byte begins no token, or a number is badly written or over 2^64 - 1.

The place is that byte, or the first digit of the number.

Example:

    input a : 8;
    reg x : 8 dynamic;
    state S enforced low { x := a % 3; goto S; }

Cure: Write it with the signs of the language: `:= == != <= << >> ( ) { } [ ] : ; , ? = < + - * & |
^ ~`. A number is decimal digits, or a width with `'d` or `'h`, and is followed by no letter.
";

const E2: &str = "E2: a token stands where none of its kind can stand, or the text ends too early.

The place is the first token after which no design can begin with the tokens so far; at the end of
the text it is just after the last byte.

Example:

    reg x : 8 dynamic
    state S enforced low { goto S; }

Cure: Look at what stands just before the place. In the example `;` is missing behind `dynamic`. A
design has its declarations first, then one state or more.

Often met, with the token of the place in front:

    if        in `else if (..)`: write `else { if (..) { .. } }`
    [         in `reg [7:0] x`: the width is behind the name, `reg x : 8 dynamic;`
    <= or =   in `x <= 1;` or `x = 1;`: an assignment is `:=`, and `<=` compares
    level     in `reg level : 8`: a keyword is no name
    }         at the end of a `case`: its last block is `else { .. }`
    then, (   in `k then {`, `case (`: they need the first line `sapper 2;`, exactly so
";

const E3: &str = "E3: a name is declared twice.

The place is the name in the later declaration. Inputs, registers, memories and states share one set
of names.

Example:

    reg x : 8 dynamic;
    reg x : 4 dynamic;
    state S enforced low { goto S; }

Cure: Give one of them another name. A level may have the name of an entity.
";

const E4: &str = "E4: a used name is declared nowhere.

The place is the name.

Example:

    reg x : 8 dynamic;
    state S enforced low { x := y; goto S; }

Cure: Declare it, or write the name that was meant. Inputs, registers and memories are declared
before the states; a state may be used before its own declaration.
";

const E5: &str = "E5: a used name is of the wrong kind.

The place is the name. An assignment has a register, an index a memory, a plain read an input or a
register, `goto` a state, `setTag` a register, a state or a cell of a memory.

Example:

    input a : 8;
    state S enforced low { a := 1; goto S; }

Cure: Use an entity of the right kind. In the example that is a register in place of the input.

Often met:

    x[3]      of a register or an input: bit 3 is `x[3:3]`, and bit n is `(x >> n)[0:0]`
    x := m    of a memory: read a cell, `m[0]`
    a := 1    of an input: what surrounds the module drives it
";

const E6: &str = "E6: a name of a level is no level of the lattice file.

The place is the name.

Example:

    reg x : 8 enforced secret;
    state S enforced low { goto S; }

Cure: Write a level that the lattice file lists under `levels`, or add the level there.
";

const E7: &str =
    "E7: a width is out of range or missing, or two widths differ that must be the same.

The place is the first token of the expression that has the wrong width or none, a number whose own
width isn't 1 to 64, or the number of a declared width or depth. Widths are 1 to 64; a depth is a
power of two from 2 to 4096.

Example:

    input a : 8;
    reg x : 4 dynamic;
    state S enforced low { x := a; goto S; }

Cure: Take part of the number, `a[3:0]`, or widen it, `zext(a, 16)`. A number without a width takes
the one that its place asks for; where nothing asks, give it one, as in `8'd5`.
";

const E8: &str = "E8: a number is too large for its width.

The place is the number.

Example:

    reg x : 4 dynamic;
    state S enforced low { x := 16; goto S; }

Cure: Write a smaller number, or widen what it is written to. Arithmetic wraps around, a written
number doesn't.

Often met:

    a && b == 2   `&b` is one bit, which 2 doesn't fit: write `a & b == 2`
    m[4]          of a memory of 4 cells: its index has 2 bits, so the last cell is `m[3]`
    x == 16       of 4 bits, and `16:` in a `case` of them: no such x
";

const E9: &str = "E9: the declared tag isn't at or above the authority.

The place is the level behind `enforced`.

Example:

    reg x : 8 enforced low under high;
    state S enforced low { goto S; }

Cure: Raise the level behind `enforced`, or lower the one behind `under`, so that the second is at
or below the first.
";

const E10: &str = "E10: a body doesn't end each of its ways with one transfer.

The place is the token behind the commands that lack one, an `if` without `else` that would have to
end the body, a transfer that other commands follow or that stands in the handler of another command
than a transfer, or the `then` of a transfer. A transfer is a `goto` or a `fall`.

Example:

    reg x : 8 dynamic;
    state S enforced low { x := 1; }

Cure: End each way through the body with `goto` or `fall`, in both branches of an `if` that ends it,
in each block of a `case` or behind `then`, and in the handler of a transfer, and put none before
the end, nor into the handler of anything else.
";

const E11: &str = "E11: a `goto` leaves its group.

The place is the target. A group is the children of one state, or the states at the top.

Example:

    state P enforced low {
      goto C;
      state C enforced low { goto C; }
    }

Cure: Go to a state beside the one in whose body the `goto` stands, or to that state itself. A child
is entered by `fall`.
";

const E12: &str = "E12: a `fall` stands in a state without children.

The place is the `fall`.

Example:

    state S enforced low { fall; }

Cure: Use `goto`, or give the state a child.
";

const E14: &str = "E14: a memory may be written twice in one cycle.

The place is the second write or `setTag` on a cell of the memory. It counts by ways through the
bodies, whatever the indices are.

Example:

    mem m : 8[4] dynamic;
    state S enforced low { m[0] := 1; m[1] := 2; goto S; }

Cure: Write in one cycle at most one cell of each memory on each way: put the writes into two
branches of an `if`, into two states, or into two memories.
";

const E15: &str = "E15: a handler can never run.

The place is the `otherwise` or the `then`. Its command can't be refused: only writes to what is
enforced, `setTag`, a `goto` from or to an enforced state and a `fall` in a state with an enforced child
may be.

Example:

    reg x : 8 dynamic;
    state S enforced low { x := 1 otherwise { x := 2; } goto S; }

Cure: Leave the handler out, or make the target enforced. Of a `then` put the commands of its block
behind the command, and drop `then` and `otherwise`.
";

const E16: &str = "E16: `setTag` is used on a dynamic entity.

The place is the entity's name. The tag of a dynamic entity follows what is written to it.

Example:

    reg x : 8 dynamic;
    state S enforced low { setTag(x, high); goto S; }

Cure: Declare the entity enforced, or leave the `setTag` out.
";

const E17: &str = "E17: `setTag` is used on its own state, or on one above or below it.

The place is the state's name. A body may not retag its own state, a state above it or a state below
it.

Example:

    state S enforced high { setTag(S, high); goto S; }

Cure: Put the `setTag` into the body of a state of another branch of the tree.
";

const E18: &str = "E18: a limit is passed.

The limit's name stands behind the place: `bytes` (1048576 in the file), `name` (40 bytes), `inputs`
(64), `registers` (256), `memories` (16), `states` (256), `nesting` (states 16 deep), `commands`
(4096), `blocks` (commands 64 deep), `brackets` (64 open in one expression), `expression` (256
tokens).

Example:

    input aaaaaaaaaaaaaaaaaaaaaaaaaaaaaaaaaaaaaaaaa : 8;
    state S enforced low { goto S; }

Cure: Make the design smaller there: shorter names, an expression in two assignments, flatter
states. Two designs side by side have each their own limits.
";

// Each code with its text.
static DESIGN_FAULTS: [(&str, &str); 17] = [
    ("E1", E1),
    ("E2", E2),
    ("E3", E3),
    ("E4", E4),
    ("E5", E5),
    ("E6", E6),
    ("E7", E7),
    ("E8", E8),
    ("E9", E9),
    ("E10", E10),
    ("E11", E11),
    ("E12", E12),
    ("E14", E14),
    ("E15", E15),
    ("E16", E16),
    ("E17", E17),
    ("E18", E18),
];

pub(crate) fn design_fault(code: &str) -> Option<&'static str>
    ensures known { is_some result ≡ is_one_of design_codes code.now }
    ensures begins { IfSome result (λ text. IsTextOf code.now text.now) }
{
    text_of(&DESIGN_FAULTS, code)
}
