//! What is noted of a whole file.

ghost use Rattle.std.specs.Prelude.{◌≡◌, IfOk, List, ℕ};
ghost use Rattle.sap_vread.specs.Build.Firsts.{number_of};
ghost use Rattle.sap_vtext.specs.Modules.{first_of};
ghost use Rattle.sap_vread.specs.Build.Noted.{all_noted, ports_noted};
ghost use Rattle.sap_vread.specs.declared.build.noting.Noting.TheVariants.{Range};
ghost use Rattle.sap_vread.specs.Build.Tables.{AreNoted};
ghost use Rattle.sap_vparse.specs.Views.{file_of, items_of, ports_of};

use crate::build::firsts::Firsts;
use crate::build::noting::{Noting, note_items, note_ports};
use sap_vparse::items::{File, Item};
use std::alloc::{AllocError, Global};

/// Under each name the number of its range and its initial number, and the place of its `always` among the items.
#[derive(Drop)]
pub struct Tables {
    pub ranges: Firsts,
    pub starts: Firsts,
    pub nexts: Firsts,
    pub writes: Firsts,
}

// Notes what the items of a file say of names.
fn noted_items(alloc: Global, noting: Noting, items: &[Item]) -> Result<Firsts, AllocError>
    ensures { IfOk result (λ f. (n : List ℕ) → number_of f n ≡ all_noted noting n 0 (items_of items.now)) }
{
    let mut firsts = Firsts::new(alloc);
    note_items(alloc, &mut firsts, noting, items)?;
    Ok(firsts)
}

// Notes the numbers of the ranges of a file.
fn noted_ranges(alloc: Global, file: &File) -> Result<Firsts, AllocError>
    ensures { IfOk result (λ f. (n : List ℕ) → number_of f n ≡ first_of (ports_noted n (ports_of file.now.ports.items)) (all_noted Range n 0 (items_of file.now.items.items))) }
{
    let mut ranges = Firsts::new(alloc);
    note_ports(alloc, &mut ranges, file.ports.as_slice())?;
    note_items(alloc, &mut ranges, Noting::Range, file.items.as_slice())?;
    Ok(ranges)
}

/// Notes all names of a file.
pub fn tabled(alloc: Global, file: &File) -> Result<Tables, AllocError>
    ensures { IfOk result (λ t. AreNoted t (file_of file.now)) }
{
    let items = file.items.as_slice();
    let ranges = noted_ranges(alloc, file)?;
    let starts = noted_items(alloc, Noting::Start, items)?;
    let nexts = noted_items(alloc, Noting::Next, items)?;
    let writes = noted_items(alloc, Noting::Write, items)?;
    Ok(Tables {
        ranges,
        starts,
        nexts,
        writes,
    })
}
