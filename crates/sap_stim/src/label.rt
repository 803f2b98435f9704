//! The parts of rows that are made once: the labels of registers, and the texts of levels.

ghost use Rattle.std.specs.Prelude.{◌≡◌, ◌++◌, IfOk, IfSome, take};
ghost use Rattle.sap_stim.specs.Rows.{AreLevelTexts, at_level, label_text};

use crate::rows::push_level;
use crate::short::{Short, put_text};
use sap_desk::Bytes;
use sap_lattice::lattice::Lattice;
use sap_lattice::name::Name;
use std::alloc::{AllocError, Global};
use std::marker::Model;

/// How many tags have their text made beforehand.
const TAGS_WITH_TEXT: u64 = 16;

/// What stands before the number of a register in a row, seen as the register's name.
#[derive(Drop)]
pub struct RowLabel {
    text: Vec<u8>,
    // the text once more, where it is short
    short: Option<Short>,
}

impl Model for RowLabel {
    ghost use Rattle.std.specs.Prelude.{◌≡◌, ◌-◌, ℕ, List, IfSome, drop, length, take};
    ghost use Rattle.sap_stim.specs.Rows.{label_text};

    ghost Value = { List ℕ };

    // between the space and the `=`
    ghost view = { λ l. take (length l.text.items - 2) (drop 1 l.text.items) };

    ghost invariant = { λ l. (l.text.items ≡ label_text (take (length l.text.items - 2) (drop 1 l.text.items))) × IfSome l.short (λ s. s ≡ l.text.items) };
}

// The bytes of a label.
fn label_text(alloc: Global, name: &[u8]) -> Result<Vec<u8>, AllocError>
    ensures { IfOk result (λ text. text.items ≡ label_text name.now) }
{
    let mut text = Vec::with_capacity(alloc, name.len().saturating_add(2))?;
    text.extend_from_slice(b" ")?;
    text.extend_from_slice(name)?;
    text.extend_from_slice(b"=")?;
    Ok(text)
}

impl RowLabel {
    /// The label of the register of a name.
    pub fn new(alloc: Global, name: &Name) -> Result<RowLabel, AllocError>
        ensures { IfOk result (λ label. label ≡ name.now) }
    {
        let text = label_text(alloc, name.as_bytes())?;
        let short = Short::new(&text);
        Ok(RowLabel { text, short })
    }

    /// The name between a space and `=`.
    pub fn as_bytes(&self) -> &[u8]
        ensures { result.now ≡ label_text self.now }
    {
        &self.text
    }

    /// The name between a space and `=`, where that is short.
    #[inline(always)]
    pub(crate) fn short(&self) -> Option<&Short>
        ensures { IfSome result (λ s. s.now ≡ label_text self.now) }
    {
        match &self.short {
            Some(short) => Some(short),
            None => None,
        }
    }

    /// Writes the name between a space and `=` at a place, and tells where that ends; none where there is little room.
    pub(crate) fn put(&self, bytes: &mut [u8], at: usize) -> Option<usize>
        ensures { IfSome result (λ end. take end bytes.new ≡ take at bytes.old ++ label_text self.now) }
    {
        match &self.short {
            Some(short) => short.put(bytes, at),
            None => put_text(bytes, at, &self.text),
        }
    }
}

/// The labels of the registers of these names.
pub fn labels_of(alloc: Global, names: &[Name]) -> Result<Vec<RowLabel>, AllocError>
    ensures { IfOk result (λ labels. labels.items ≡ names.now) }
{
    let mut labels = Vec::new(alloc);
    for name in names {
        labels.push(RowLabel::new(alloc, name)?)?;
    }
    Ok(labels)
}

// What stands behind the number of a register with a tag.
fn level_text(alloc: Global, tag: u64, lattice: &Lattice) -> Result<Bytes, AllocError>
    ensures { IfOk result (λ text. text ≡ at_level lattice.now tag) }
{
    let mut text = Vec::new(alloc);
    text.push(b'@')?;
    push_level(&mut text, tag, lattice)?;
    Ok(Bytes::new(text))
}

/// What stands behind numbers, for the first tags whose texts are short.
pub fn level_texts(alloc: Global, lattice: &Lattice) -> Result<Vec<Short>, AllocError>
    ensures { IfOk result (λ texts. AreLevelTexts lattice.now texts.items) }
{
    let mut texts = Vec::new(alloc);
    for tag in 0..TAGS_WITH_TEXT {
        let text = level_text(alloc, tag, lattice)?;
        let Some(short) = Short::new(text.as_slice()) else {
            return Ok(texts);
        };
        texts.push(short)?;
    }
    Ok(texts)
}
