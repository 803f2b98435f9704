//! The faults of a lattice file.

ghost use Rattle.std.specs.Prelude.{◌≡◌, IfSome, is_some};
ghost use Rattle.sap_help.specs.Codes.{IsTextOf, is_one_of, lattice_codes};

use crate::text::text_of;

const L1: &str = "L1: the lattice file is no TOML.

Example:

    levels = low, high

Cure: Write a TOML document of two keys:

    levels = [\"low\", \"high\"]
    below = [[\"low\", \"high\"]]
";

const L2: &str = "L2: the lattice file isn't of the right shape.

It has exactly two keys: `levels`, an array of strings, and `below`, an array of pairs of strings.

Example:

    levels = [\"low\", \"high\"]

Cure: Give both keys and no other.
";

const L3: &str = "L3: there are fewer than 2 levels or more than 64.

The count stands behind the code.

Example:

    levels = [\"low\"]
    below = []

Cure: List 2 to 64 levels.
";

const L4: &str = "L4: a level has no good name.

The position of the first such level, from 1, stands behind the code. A name is a letter or `_`,
then letters, digits and `_`, of at most 40 bytes, no keyword of version 1, and no name of an earlier
level. `then` and `case` may be levels, but a design of version 2 can't name them.

Example:

    levels = [\"low\", \"low\"]
    below = [[\"low\", \"low\"]]

Cure: Rename the level.
";

const L5: &str = "L5: a pair names something that is no level.

The position of the first such pair, from 1, stands behind the code.

Example:

    levels = [\"low\", \"high\"]
    below = [[\"low\", \"hi\"]]

Cure: Write names that stand under `levels` in `below`.
";

const L6: &str = "L6: two levels are each at or below the other.

The names of the two stand behind the code, the one that is earlier in the file first. Of several
such pairs they are those of the pair whose earlier level comes first, and of these whose other does.

Example:

    levels = [\"low\", \"high\"]
    below = [[\"low\", \"high\"], [\"high\", \"low\"]]

Cure: Leave out a pair of the ring, or make the two one level.
";

const L7: &str = "L7: two levels have no least level above both.

The names of the two stand behind the code, the one that is earlier in the file first. Of several
such pairs they are those of the pair whose earlier level comes first, and of these whose other does.

Example:

    levels = [\"low\", \"a\", \"b\"]
    below = [[\"low\", \"a\"], [\"low\", \"b\"]]

Cure: Add a level above both, with its pairs; where there are several such levels of which none is
the least, add one below these.
";

const L8: &str = "L8: there is no least level.

Example:

    levels = [\"a\", \"b\", \"top\"]
    below = [[\"a\", \"top\"], [\"b\", \"top\"]]

Cure: Add a level below all others, with its pairs.
";

// Each code with its text.
static LATTICE_FAULTS: [(&str, &str); 8] = [
    ("L1", L1),
    ("L2", L2),
    ("L3", L3),
    ("L4", L4),
    ("L5", L5),
    ("L6", L6),
    ("L7", L7),
    ("L8", L8),
];

pub(crate) fn lattice_fault(code: &str) -> Option<&'static str>
    ensures known { is_some result ≡ is_one_of lattice_codes code.now }
    ensures begins { IfSome result (λ text. IsTextOf code.now text.now) }
{
    text_of(&LATTICE_FAULTS, code)
}
