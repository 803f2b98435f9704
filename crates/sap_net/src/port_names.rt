//! What the names of a compiled module name.

ghost use Rattle.std.specs.Prelude.{◌≡◌};
ghost use Rattle.std.specs.Option.{option_copied};
ghost use Rattle.sap_net.specs.PortNames.{value_of};

/// x, where a name is `v_x`.
pub fn behind_v(name: &str) -> Option<&str>
    ensures { option_copied result ≡ value_of name.now }
{
    let rest = name.strip_prefix('v')?;
    let x = rest.strip_prefix('_')?;
    if x.is_empty() { None } else { Some(x) }
}
