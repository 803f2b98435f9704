//! The laws of canonical texts.

ghost use Rattle.sap_show.specs.Examples.{Adder, Nested, Second};
ghost use Rattle.sap_show.specs.Reading.{PlacesAside, ShownAgain};

use sap_parse::law::one_reading;

/// The canonical text doesn't depend on places, and that of what it is read as is the same text.
pub fn one_text()
    ensures places_aside { PlacesAside }
    ensures shown_again { ShownAgain }
{
    one_reading();
}

/// The texts of small designs, worked out.
pub fn worked_texts()
    ensures adder { Adder }
    ensures nested { Nested }
    ensures second { Second }
{}
