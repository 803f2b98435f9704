//! The faults of assembly.

ghost use Rattle.std.specs.Prelude.{◌≡◌, IfSome, is_some};
ghost use Rattle.sap_help.specs.Codes.{IsTextOf, assembly_codes, is_one_of};

use crate::text::text_of;

const B1: &str = "B1: a line isn't of the form.

A line is `nop`, `halt`, or one of `ldi`, `ld`, `st`, `add`, `sub`, `jmp` and `jz`, one space and one to
three digits. There are no empty lines and no comments.

Example:

    halt 1

Cure: Write `halt`. Names are in lower case, and nothing stands before or behind them.
";

const B2: &str = "B2: the number is too large.

Behind `ldi` it is at most 255; behind the others, which name one of 16 cells or words, at most 15.

Example:

    ld 16

Cure: Write `ld 15` for the last cell.
";

const B3: &str = "B3: there are more than 16 lines.

Example:

    nop
    nop
    nop
    nop
    nop
    nop
    nop
    nop
    nop
    nop
    nop
    nop
    nop
    nop
    nop
    nop
    halt

Cure: A program has 16 words at most; missing ones are 0, which is `nop`.
";

const B4: &str = "B4: the last line has no line feed.

Example:

    halt (and the end of the file)

Cure: End each line with a line feed.
";

// Each code with its text.
static ASSEMBLY_FAULTS: [(&str, &str); 4] = [("B1", B1), ("B2", B2), ("B3", B3), ("B4", B4)];

pub(crate) fn assembly_fault(code: &str) -> Option<&'static str>
    ensures known { is_some result ≡ is_one_of assembly_codes code.now }
    ensures begins { IfSome result (λ text. IsTextOf code.now text.now) }
{
    text_of(&ASSEMBLY_FAULTS, code)
}
