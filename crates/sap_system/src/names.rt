// Which byte strings may be the name of a part.

ghost use Rattle.std.specs.Prelude.{◌≡◌, ◌||◌, not, nat_lt, length};
ghost use Rattle.sap_text.specs.Names.{is_word, is_among, design_keywords};
ghost use Rattle.sap_lattice.specs.declared.TheConstants.{MOST_NAME_BYTES};
ghost use Rattle.sap_system.specs.Rules.{has_underscore};

use sap_lattice::name;

fn has_underscore(bytes: &[u8]) -> bool
    ensures { result ≡ has_underscore bytes.now }
{
    bytes.iter().any(|c| *c == b'_')
}

/// Whether no part may have this name.
pub fn is_unfit(name: &[u8]) -> bool
    ensures { result ≡ (not (is_word name.now) || (is_among name.now design_keywords || nat_lt MOST_NAME_BYTES (length name.now)) || has_underscore name.now) }
{
    name::is_unfit(name) || has_underscore(name)
}
