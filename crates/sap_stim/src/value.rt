//! Values and levels of a field.

ghost use Rattle.std.specs.Prelude.{◌≡◌, ◌≤◌, ◌^◌, nat_lt};
ghost use Rattle.std.specs.Char.{is_ascii_digit};
ghost use Rattle.std.specs.List.{list_all};
ghost use Rattle.sap_lattice.specs.Levels.{level_named};
ghost use Rattle.sap_stim.specs.Line.{value_of, tagged_of, plain_of, field_of, IsSized};

use crate::MOST_DIGITS;
use crate::fault::StimCode;
use crate::field::Field;
use crate::text::cut;
use sap_lattice::lattice::Lattice;
use sap_lattice::level::Level;
use sap_stream::inputs::Tagged;
use sap_text::scan::number;

pub(crate) fn are_digits(text: &[u8]) -> bool
    ensures { result ≡ list_all is_ascii_digit text.now }
{
    text.iter().all(|b| b.is_ascii_digit())
}

/// Whether a number has at most `width` bits.
pub(crate) fn is_within(value: u64, width: u32) -> bool
    requires wide { 1 ≤ width }
    requires narrow { width ≤ 64 }
    ensures { result ≡ nat_lt value (2 ^ width) }
{
    width == 64 || value < 1 << width
}

fn read_value(text: &[u8], width: u32) -> Result<u64, StimCode>
    requires wide { 1 ≤ width }
    requires narrow { width ≤ 64 }
    ensures { result ≡ value_of width text.now }
{
    if text.is_empty() || text.len() > MOST_DIGITS || !are_digits(text) {
        return Err(StimCode::S1);
    }
    match number(10, text) {
        Some(value) if is_within(value, width) => Ok(value),
        _ => Err(StimCode::S2),
    }
}

/// The level of this name.
pub(crate) fn find_level(lattice: &Lattice, name: &[u8]) -> Option<Level>
    ensures { result ≡ level_named lattice.now.names name.now }
{
    lattice.level_named(name)
}

fn read_tagged(text: &[u8], width: u32, lattice: &Lattice) -> Result<Tagged, StimCode>
    requires wide { 1 ≤ width }
    requires narrow { width ≤ 64 }
    ensures { result ≡ tagged_of lattice.now width text.now }
{
    let (digits, name) = cut(text, b'@');
    if name.is_empty() {
        return Err(StimCode::S1);
    }
    let value = read_value(digits, width)?;
    match find_level(lattice, name) {
        Some(level) => Ok(Tagged::new(value, level)),
        None => Err(StimCode::S3),
    }
}

fn read_plain(text: &[u8], width: u32, lattice: &Lattice) -> Result<Tagged, StimCode>
    requires wide { 1 ≤ width }
    requires narrow { width ≤ 64 }
    ensures { result ≡ plain_of lattice.now width text.now }
{
    let value = read_value(text, width)?;
    Ok(Tagged::new(value, lattice.bottom()))
}

/// What a field of a line gives.
pub fn read_field(text: &[u8], field: Field, lattice: &Lattice) -> Result<Tagged, StimCode>
    requires { IsSized field }
    ensures { result ≡ field_of lattice.now field text.now }
{
    match field {
        Field::Tagged(width) => read_tagged(text, width, lattice),
        Field::Plain(width) => read_plain(text, width, lattice),
    }
}
