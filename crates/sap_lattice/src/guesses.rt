// Where an item of a list may stand.

ghost use Rattle.std.specs.Prelude.{◌<◌};
ghost use Rattle.sap_lattice.specs.declared.guesses.TheConstants.{SLOTS};

use crate::name::Name;

/// How many slots there are: many beside `MOST_LEVELS`, so that few items share one.
const SLOTS: usize = 1024;

/// A place for each slot: that of the last of the items that have the slot.
///
/// It is only a guess where an item stands, since several items may have a slot, and others none. Who asks
/// compares the item at that place.
#[derive(Clone, Copy)]
pub struct Guesses {
    places: [u8; SLOTS],
}

/// The slot of a number. Numbers that differ in few bits have slots far apart.
fn slot(number: u64) -> usize
    ensures { result < SLOTS }
{
    // by 2^64 divided by the golden ratio; the 10 highest bits
    (number.wrapping_mul(0x9E37_79B9_7F4A_7C15) >> 54) as usize
}

/// A number of the bytes of a name.
fn number(name: &[u8]) -> u64 {
    name.iter().fold(0u64, |number, byte| {
        number.wrapping_mul(41).wrapping_add(u64::from(*byte))
    })
}

impl Guesses {
    pub fn of_codes(codes: &[u64]) -> Guesses {
        let mut places = [0; SLOTS];
        for (place, code) in (0..=u8::MAX).zip(codes) {
            places[slot(*code)] = place;
        }
        Guesses { places }
    }

    pub fn of_names(names: &[Name]) -> Guesses {
        let mut places = [0; SLOTS];
        for (place, name) in (0..=u8::MAX).zip(names) {
            places[slot(number(name.as_bytes()))] = place;
        }
        Guesses { places }
    }

    /// Where this code may stand.
    pub fn of_code(&self, code: u64) -> u8 {
        self.places[slot(code)]
    }

    /// Where this name may stand.
    pub fn of_name(&self, name: &[u8]) -> u8 {
        self.places[slot(number(name))]
    }
}
