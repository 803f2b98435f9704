//! The faults of a stimulus.

ghost use Rattle.std.specs.Prelude.{◌≡◌, IfSome, is_some};
ghost use Rattle.sap_help.specs.Codes.{IsTextOf, is_one_of, stimulus_codes};

use crate::text::text_of;

const S1: &str = "S1: a field isn't of the form `VALUE@LEVEL`, or a line is longer than 65536 bytes.

The line's number stands behind the code. VALUE is 1 to 20 decimal digits. For `sim` an input of the
module without a tag has a field `VALUE`.

Example:

    5

Cure: Write `5@low`.
";

const S2: &str = "S2: a value is too large for its input.

Example:

    256@low

Cure: Write a number that the width of the input holds: below 256 for 8 bits.
";

const S3: &str = "S3: a level of a field is no level of the lattice file.

Example:

    5@secret

Cure: Write a level that the lattice file lists under `levels`.
";

const S4: &str = "S4: a line has too many fields or too few.

A line has a field for each input, in the order of declaration, with one space between them; with no
inputs it has none. A count at its end is no field; a space at its end counts as one more field.

Example:

    5@low 6@low

Cure: For a design of one input write one field.
";

const S5: &str = "S5: the last line isn't ended.

Example:

    5@low (and the file ends here, without a line feed)

Cure: End each line with a line feed, the last one too.
";

const S6: &str = "S6: the count of a line isn't `*` and a number from 1 to 65535.

A last piece of a line that begins with `*` is its count: the line stands for so many cycles. The
number has 1 to 5 decimal digits.

Example:

    5@low *0

Cure: Write `5@low *3` for three cycles, and `5@low` for one.
";

// Each code with its text.
static STIMULUS_FAULTS: [(&str, &str); 6] = [
    ("S1", S1),
    ("S2", S2),
    ("S3", S3),
    ("S4", S4),
    ("S5", S5),
    ("S6", S6),
];

pub(crate) fn stimulus_fault(code: &str) -> Option<&'static str>
    ensures known { is_some result ≡ is_one_of stimulus_codes code.now }
    ensures begins { IfSome result (λ text. IsTextOf code.now text.now) }
{
    text_of(&STIMULUS_FAULTS, code)
}
