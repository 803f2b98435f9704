//! The faults of a value change dump.

ghost use Rattle.std.specs.Prelude.{◌≡◌, IfSome, is_some};
ghost use Rattle.sap_help.specs.Codes.{IsTextOf, is_one_of, wave_codes};

use crate::text::text_of;

const Y1: &str =
    "Y1: a line isn't of a form for its position or has no line feed, or the file ends before block 0 begins.

The line's number stands behind the code; the end of the file counts as the line after the last. The
lines are, in this order: `$timescale 1ns $end`, `$scope module top $end`, a `$var reg W ID NAME $end`
for each variable, `$upscope $end`, `$enddefinitions $end`, and then blocks of `#N` and `bBITS ID`, the
first of them `#0`. Pieces stand one space apart, and decimal numbers have no leading zeros.

Example:

    $timescale 1 ns $end

Cure: Write `$timescale 1ns $end`. A dump of another program has other lines: only what `wave` writes is
read.
";

const Y2: &str = "Y2: a variable is declared wrongly.

Its ID isn't that of its number, its width isn't 1 to 64, or its name is no name of a module or stands
earlier. The ID is the number of the variable, from 0, in base 94, the digit d being the byte 33 + d:
`!` is the first one's, `\"` the second's.

Example:

    $var reg 65 ! v_x $end

Cure: Number the variables in order, and give each a name of its own and the width of its register.
";

const Y3: &str = "Y3: a change is of no variable, out of order, or of another width.

Its ID is that of no variable, or of one not behind the one before in its block, or it has not as many
digits as the variable is wide.

Example:

    b101 !

Cure: With a first variable of 8 bits write `b00000101 !`, before the changes of later ones.
";

const Y4: &str = "Y4: the number of a block isn't the next.

Example:

    #0
    b00000001 !
    #2

Cure: Number the blocks 0, 1, 2 and so on. A cycle without a change has its block too.
";

const Y5: &str = "Y5: a change to the number that stands, or a first block that lacks a variable.

The place of the second is the line behind that block, or the end of the file.

Example:

    #0
    b00000001 !
    #1
    b00000001 !

Cure: Give each variable its first number in block 0, and later only those that change.
";

// Each code with its text.
static WAVE_FAULTS: [(&str, &str); 5] = [
    ("Y1", Y1),
    ("Y2", Y2),
    ("Y3", Y3),
    ("Y4", Y4),
    ("Y5", Y5),
];

pub(crate) fn wave_fault(code: &str) -> Option<&'static str>
    ensures known { is_some result ≡ is_one_of wave_codes code.now }
    ensures begins { IfSome result (λ text. IsTextOf code.now text.now) }
{
    text_of(&WAVE_FAULTS, code)
}
