//! What the lines of a stimulus give the inputs of a module.

ghost use Rattle.std.specs.Prelude.{◌≡◌, ◌*◌, length};
ghost use Rattle.sap_trace.specs.Given.{given};

use sap_lattice::lattice::Lattice;
use sap_stream::Tagged;

/// Takes the numbers of a module's inputs, in place of others: of each field its value, and the code of
/// its level.
pub fn take_numbers(lattice: &Lattice, line: &[Tagged], numbers: &mut [u64])
    requires { length numbers.old ≡ 2 * length line.now }
    ensures { numbers.new ≡ given lattice.now line.now }
{
    for k in 0..line.len() {
        numbers[2 * k] = line[k].number();
        numbers[2 * k + 1] = lattice.code(line[k].level());
    }
}
