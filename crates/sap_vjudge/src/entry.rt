//! What is known of one name.

ghost use Rattle.std.specs.Prelude.{◌≡◌, ◌||◌, Some, option_map};
ghost use Rattle.std.specs.Option.{option_or};
ghost use Rattle.sap_vtext.specs.Names as names;
ghost use Rattle.sap_vtext.specs.Names.{same_setting};
ghost use Rattle.sap_vjudge.specs.Shapes.{shape_of, setting_of};
ghost use Rattle.sap_vjudge.specs.Entries.{entry_shape, entry_set};

use crate::shape::{Setting, Shape};

/// What a name is first declared as, and which items set it.
#[derive(Clone, Copy)]
pub struct Entry {
    pub shape: Option<Shape>,
    pub assigned: bool,
    pub started: bool,
    pub clocked: bool,
}

pub fn shape_in(entry: Option<Entry>) -> Option<Shape>
    ensures { option_map shape_of result ≡ entry_shape entry }
{
    match entry {
        Some(known) => known.shape,
        None => None,
    }
}

pub fn is_set_in(entry: Option<Entry>, setting: Setting) -> bool
    ensures { result ≡ entry_set entry (setting_of setting) }
{
    match entry {
        Some(known) => match setting {
            Setting::Assign => known.assigned,
            Setting::Initial => known.started,
            Setting::Always => known.clocked,
        },
        None => false,
    }
}

fn known(entry: Option<Entry>) -> Entry
    ensures shape { entry_shape (Some result) ≡ entry_shape entry }
    ensures set { (s : names.Setting) → entry_set (Some result) s ≡ entry_set entry s }
{
    match entry {
        Some(known) => known,
        None => Entry {
            shape: None,
            assigned: false,
            started: false,
            clocked: false,
        },
    }
}

/// With a declaration: the first counts.
pub fn declared(entry: Option<Entry>, shape: Shape) -> Entry
    ensures shape { entry_shape (Some result) ≡ option_or (entry_shape entry) (Some (shape_of shape)) }
    ensures set { (s : names.Setting) → entry_set (Some result) s ≡ entry_set entry s }
{
    let mut known = known(entry);
    if known.shape.is_none() {
        known.shape = Some(shape);
    }
    known
}

/// With an item that sets the name.
pub fn set(entry: Option<Entry>, setting: Setting) -> Entry
    ensures shape { entry_shape (Some result) ≡ entry_shape entry }
    ensures set { (s : names.Setting) → entry_set (Some result) s ≡ (entry_set entry s || same_setting s (setting_of setting)) }
{
    let mut known = known(entry);
    match setting {
        Setting::Assign => known.assigned = true,
        Setting::Initial => known.started = true,
        Setting::Always => known.clocked = true,
    }
    known
}
