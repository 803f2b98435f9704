//! Wires that join tags.

ghost use Rattle.std.specs.Prelude.{◌≡◌, ℕ, List, ◌++◌, ◌∷◌, [], IfOk, OnOk, length};
ghost use Rattle.sap_net.specs.Net.{Net};
ghost use Rattle.sap_build.specs.Writing.{assigned};
ghost use Rattle.sap_taint_pass.specs.Tainted as spec;
ghost use Rattle.sap_taint_pass.specs.Helping.{helping_name};
ghost use Rattle.sap_taint_pass.specs.Helped.{Helped, Adds};

use crate::names::tag_name;
use sap_bits::Op2;
use sap_build::writer::Writer;
use sap_net::parts::{Name, Operand, Right, Wire};
use std::alloc::{AllocError, Global};

fn add_tag(alloc: Global, tags: &mut Vec<Name>, operand: &Operand) -> Result<(), AllocError>
    ensures { OnOk result (tags.new.items ≡ tags.old.items ++ spec.tags_of (operand.now ∷ [])) }
{
    match operand {
        Operand::Named(name) => {
            tags.push(tag_name(alloc, name)?)?;
            Ok(())
        }
        Operand::Constant { .. } => Ok(()),
    }
}

fn add_tags(alloc: Global, tags: &mut Vec<Name>, operands: &[Operand]) -> Result<(), AllocError>
    ensures { OnOk result (tags.new.items ≡ tags.old.items ++ spec.tags_of operands.now) }
{
    for operand in operands {
        add_tag(alloc, tags, operand)?;
    }
    Ok(())
}

/// The names of the tags that a right side reads.
pub(crate) fn tags_read(alloc: Global, right: &Right) -> Result<Vec<Name>, AllocError>
    ensures { IfOk result (λ tags. tags.items ≡ spec.tags_of (spec.operands_of right.now)) }
{
    let mut tags = Vec::new(alloc);
    match right {
        Right::Copy(a) | Right::One(_, a) => add_tag(alloc, &mut tags, a)?,
        Right::Two(_, a, b) => {
            add_tag(alloc, &mut tags, a)?;
            add_tag(alloc, &mut tags, b)?;
        }
        Right::Choose(c, a, b) => {
            add_tag(alloc, &mut tags, c)?;
            add_tag(alloc, &mut tags, a)?;
            add_tag(alloc, &mut tags, b)?;
        }
        Right::Concat(operands) => add_tags(alloc, &mut tags, operands.as_slice())?,
        Right::Slice { name, .. } => tags.push(tag_name(alloc, name)?)?,
        Right::Cell { memory, index } => {
            tags.push(tag_name(alloc, memory)?)?;
            add_tag(alloc, &mut tags, index)?;
        }
    }
    Ok(tags)
}

/// The tag of an operand; a constant's is 0.
pub(crate) fn tag_operand(
    alloc: Global,
    width: u32,
    operand: &Operand,
) -> Result<Operand, AllocError>
    ensures { IfOk result (λ tag. tag ≡ spec.tag_operand width operand.now) }
{
    match operand {
        Operand::Named(name) => Ok(Operand::Named(tag_name(alloc, name)?)),
        Operand::Constant { .. } => Ok(Operand::Constant { width, value: 0 }),
    }
}

/// The join of the tags of two operands.
pub(crate) fn joint(
    alloc: Global,
    width: u32,
    a: &Operand,
    b: &Operand,
) -> Result<Right, AllocError>
    ensures { IfOk result (λ right. right ≡ spec.joint width a.now b.now) }
{
    match (a, b) {
        (Operand::Named(x), Operand::Named(y)) => {
            let left = Operand::Named(tag_name(alloc, x)?);
            Ok(Right::Two(Op2::Or, left, Operand::Named(tag_name(alloc, y)?)))
        }
        (Operand::Named(x), Operand::Constant { .. }) => {
            Ok(Right::Copy(Operand::Named(tag_name(alloc, x)?)))
        }
        (Operand::Constant { .. }, _) => Ok(Right::Copy(tag_operand(alloc, width, b)?)),
    }
}

/// A wire that is the union of two.
pub(crate) fn union(name: Name, width: u32, a: Name, b: Name) -> Wire
    ensures { result ≡ spec.union width name a b }
{
    Wire {
        name,
        width,
        right: Right::Two(Op2::Or, Operand::Named(a), Operand::Named(b)),
    }
}

/// Wires that join a tag with others, one more in each; gives the name of the last, or of the tag alone.
fn add_unions(
    alloc: Global,
    writer: &mut Writer,
    width: u32,
    first: &Name,
    others: &[Name],
) -> Result<Name, AllocError>
    ensures { IfOk result (λ so_far. (n : Net) (k : ℕ) (x last : List ℕ) → Helped n k writer.old
        → Adds n k (length others.now) (spec.joins (helping_name n) width k x first.now (others.now ++ last ∷ [])) [] writer.old
        (assigned (spec.union width x so_far last) writer.new)) }
{
    let mut so_far = first.copy(alloc)?;
    for tag in others {
        let next = writer.helper(alloc)?;
        let shown = next.copy(alloc)?;
        writer.assign(union(next, width, so_far, tag.copy(alloc)?))?;
        so_far = shown;
    }
    Ok(so_far)
}

/// The wires by which one becomes the join of some tags.
pub(crate) fn add_joined(
    alloc: Global,
    writer: &mut Writer,
    width: u32,
    name: Name,
    mut tags: Vec<Name>,
) -> Result<(), AllocError>
    ensures { OnOk result ((n : Net) (k : ℕ) → Helped n k writer.old
        → Adds n k (spec.help_for tags.items) (spec.joined (helping_name n) width k name tags.items) [] writer.old writer.new) }
{
    let Some(last) = tags.pop() else {
        let right = Right::Copy(Operand::Constant { width, value: 0 });
        writer.assign(Wire { name, width, right })?;
        return Ok(());
    };
    let Some((first, others)) = tags.split_first() else {
        let right = Right::Copy(Operand::Named(last));
        writer.assign(Wire { name, width, right })?;
        return Ok(());
    };
    let so_far = add_unions(alloc, writer, width, first, others)?;
    writer.assign(union(name, width, so_far, last))?;
    Ok(())
}
