//! Lines and columns.

ghost use Rattle.std.specs.Prelude.{◌≡◌};
ghost use Rattle.sap_text.specs.Places.{place_at};

pub use sap_text::place::Place;

/// The place of the byte behind the first n bytes of a text.
pub(crate) fn place_at(text: &[u8], n: u64) -> Place
    ensures { result ≡ place_at text.now n }
{
    let n = n as usize;
    if n < text.len() {
        Place::first().after(&text[..n])
    } else {
        Place::first().after(text)
    }
}
