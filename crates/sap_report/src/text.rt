//! Places.

ghost use Rattle.std.specs.Prelude.{◌≡◌, ◌++◌, OnOk};
ghost use Rattle.sap_report.specs.Report.{place_text};

use sap_text::digits::push_number;
use sap_tree::place::Place;
use std::alloc::AllocError;

pub(crate) fn place(out: &mut Vec<u8>, place: Place) -> Result<(), AllocError>
    ensures { OnOk result (out.new.items ≡ out.old.items ++ place_text place) }
{
    push_number(out, place.line)?;
    out.extend_from_slice(b":")?;
    push_number(out, place.column)
}
