//! What the fields of a line must be.

ghost use Rattle.std.specs.Prelude.{◌≡◌};

use std::marker::Model;

/// What a field of a line must be, with its width, from 1 to 64.
#[derive(Clone, Copy, Debug, PartialEq, Eq)]
pub enum Field {
    /// A value and a level.
    Tagged(u32),
    /// A value alone, whose level is bottom.
    Plain(u32),
}

/// The fields of each line, in order.
#[derive(Debug, Drop)]
pub struct Fields {
    list: Vec<Field>,
}

impl Model for Fields {
    ghost use Rattle.std.specs.Prelude.{List};
    ghost use Rattle.sap_stim.specs.declared.field.Field.{Field};

    ghost Value = { List Field };

    ghost view = { λ fields. fields.list.items };
}

impl Fields {
    pub fn new(list: Vec<Field>) -> Fields
        ensures { result ≡ list.items }
    {
        Fields { list }
    }

    pub fn as_slice(&self) -> &[Field]
        ensures { result.now ≡ self.now }
    {
        self.list.as_slice()
    }
}
