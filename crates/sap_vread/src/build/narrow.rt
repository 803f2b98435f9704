//! Numbers of a file as a netlist keeps them.

ghost use Rattle.std.specs.Prelude.{◌≡◌, ◌<◌};
ghost use Rattle.sap_vread.specs.Build.Narrow as spec;

/// A number below 4096. A file without a fault has no other width, depth or place of a bit.
pub fn narrow(number: u64) -> u32
    ensures number { result ≡ spec.narrow number }
    ensures small { result < 4096 }
{
    if number < 4096 { number as u32 } else { 0 }
}
