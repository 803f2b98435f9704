//! The rows of a wave, one after another.

ghost use Rattle.std.specs.Prelude.{◌≡◌, IfOk};
ghost use Rattle.sap_wave_rows.specs.Rows.{rows_of_wave};

use crate::rows::{Held, held_for, make_row};
use crate::shown::{Shown, shown_of};
use sap_lattice::Lattice;
use sap_pieces::Pieces;
use sap_wave::Wave;
use std::alloc::{AllocError, Global};
use std::marker::Model;

/// The rows of a wave from one of its blocks on, over the levels of a lattice: the row that was made last, and those that
/// are still to come. It takes all its memory when it is made.
#[derive(Drop)]
pub struct BlockRows<'a> {
    lattice: &'a Lattice,
    wave: &'a Wave,
    shown: Shown,
    held: Held,
    // the block whose row is next
    next: usize,
}

impl<'a> Model for BlockRows<'a> {
    ghost use Rattle.std.specs.Prelude.{◌-◌, length};
    ghost use Rattle.sap_wave_rows.specs.Rows.{rows_of_blocks};
    ghost use Rattle.sap_wave_rows.specs.ToCome.{RowsToCome, ShowsWave};

    ghost Value = { RowsToCome };

    ghost view = { λ r. record { made = r.held.row.bytes; text = rows_of_blocks r.lattice.now r.wave.now r.next; count = length r.wave.now.blocks - r.next } };

    ghost invariant = { λ r. ShowsWave r.lattice.now r.wave.now.variables r.shown r.held };
}

impl<'a> BlockRows<'a> {
    /// All rows of a wave: those from block 1 on.
    pub fn new(
        alloc: Global,
        lattice: &'a Lattice,
        wave: &'a Wave,
    ) -> Result<BlockRows<'a>, AllocError>
        ensures { IfOk result (λ rows. rows.text ≡ rows_of_wave lattice.now wave.now) }
    {
        let shown = shown_of(alloc, wave.variables(), lattice.width())?;
        let held = held_for(alloc, lattice, &shown.names)?;
        Ok(BlockRows {
            lattice,
            wave,
            shown,
            held,
            next: 1,
        })
    }
}

impl Pieces for BlockRows<'_> {
    ghost piece = { λ rows. rows.made };

    ghost comes = { λ rows text. rows.text ≡ text };

    ghost left = { λ rows. rows.count };

    fn advance(&mut self) -> bool {
        if self.next >= self.wave.block_count() {
            return false;
        }
        make_row(
            &mut self.held,
            self.next as u64,
            self.wave.block(self.next),
            &self.shown,
            self.lattice,
        );
        self.next += 1;
        true
    }

    fn piece(&self) -> &[u8] {
        self.held.row.bytes()
    }
}
