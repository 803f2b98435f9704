//! The lines of a module's text.

ghost use Rattle.std.specs.Prelude.{◌≡◌, ◌++◌, OnOk, flat_map};
ghost use Rattle.sap_vprint.specs.Printed.{assign_of, initial_of, initial_cells_of, always_of, always_cell_of};
ghost use Rattle.sap_vprint.specs.Text.{item_text, clocked_text, loop_text};

use crate::words::{cell, constant, operand, right};
use sap_net::parts::{Memory, Register, Wire};
use sap_text::digits::push_number;
use std::alloc::AllocError;

#[tactic(auto, unfolding(crate::specs::Text::item_text))]
fn assign(out: &mut Vec<u8>, wire: &Wire) -> Result<(), AllocError>
    ensures { OnOk result (out.new.items ≡ out.old.items ++ item_text (assign_of wire.now)) }
{
    out.extend_from_slice(b"assign ")?;
    out.extend_from_slice(wire.name.as_bytes())?;
    out.extend_from_slice(b" = ")?;
    right(out, &wire.right)?;
    out.extend_from_slice(b";\n")
}

/// The assigns of wires.
pub fn assigns(out: &mut Vec<u8>, wires: &[Wire]) -> Result<(), AllocError>
    ensures { OnOk result (out.new.items ≡ out.old.items ++ flat_map (λ w. item_text (assign_of w)) wires.now) }
{
    for wire in wires {
        assign(out, wire)?;
    }
    Ok(())
}

#[tactic(auto, unfolding(crate::specs::Text::item_text))]
fn initial(out: &mut Vec<u8>, register: &Register) -> Result<(), AllocError>
    ensures { OnOk result (out.new.items ≡ out.old.items ++ item_text (initial_of register.now)) }
{
    out.extend_from_slice(b"initial ")?;
    out.extend_from_slice(register.name.as_bytes())?;
    out.extend_from_slice(b" = ")?;
    constant(out, register.width, register.start)?;
    out.extend_from_slice(b";\n")
}

/// The first numbers of registers.
pub fn initials(out: &mut Vec<u8>, registers: &[Register]) -> Result<(), AllocError>
    ensures { OnOk result (out.new.items ≡ out.old.items ++ flat_map (λ r. item_text (initial_of r)) registers.now) }
{
    for register in registers {
        initial(out, register)?;
    }
    Ok(())
}

/// The head of a loop over `depth` cells.
fn loop_head(out: &mut Vec<u8>, depth: u32) -> Result<(), AllocError>
    ensures { OnOk result (out.new.items ≡ out.old.items ++ loop_text depth) }
{
    out.extend_from_slice(b"for (i = 0; i < ")?;
    push_number(out, u64::from(depth))?;
    out.extend_from_slice(b"; i = i + 1) ")
}

fn initial_cell(out: &mut Vec<u8>, memory: &Memory) -> Result<(), AllocError>
    ensures { OnOk result (out.new.items ≡ out.old.items ++ item_text (initial_cells_of memory.now)) }
{
    out.extend_from_slice(b"initial ")?;
    loop_head(out, memory.depth)?;
    out.extend_from_slice(memory.name.as_bytes())?;
    out.extend_from_slice(b"[i] = ")?;
    constant(out, memory.width, memory.start)?;
    out.extend_from_slice(b";\n")
}

/// The first contents of memories.
pub fn initial_cells(out: &mut Vec<u8>, memories: &[Memory]) -> Result<(), AllocError>
    ensures { OnOk result (out.new.items ≡ out.old.items ++ flat_map (λ m. item_text (initial_cells_of m)) memories.now) }
{
    for memory in memories {
        initial_cell(out, memory)?;
    }
    Ok(())
}

/// The head of what happens at an edge.
#[tactic(auto, unfolding(crate::specs::Text::clocked_text))]
fn clocked(out: &mut Vec<u8>) -> Result<(), AllocError>
    ensures { OnOk result (out.new.items ≡ out.old.items ++ clocked_text) }
{
    out.extend_from_slice(b"always @(posedge clk) ")
}

fn step(out: &mut Vec<u8>, register: &Register) -> Result<(), AllocError>
    ensures { OnOk result (out.new.items ≡ out.old.items ++ item_text (always_of register.now)) }
{
    clocked(out)?;
    out.extend_from_slice(register.name.as_bytes())?;
    out.extend_from_slice(b" <= ")?;
    operand(out, &register.next)?;
    out.extend_from_slice(b";\n")
}

/// What registers take at each edge.
pub fn steps(out: &mut Vec<u8>, registers: &[Register]) -> Result<(), AllocError>
    ensures { OnOk result (out.new.items ≡ out.old.items ++ flat_map (λ r. item_text (always_of r)) registers.now) }
{
    for register in registers {
        step(out, register)?;
    }
    Ok(())
}

fn write(out: &mut Vec<u8>, memory: &Memory) -> Result<(), AllocError>
    ensures { OnOk result (out.new.items ≡ out.old.items ++ item_text (always_cell_of memory.now)) }
{
    clocked(out)?;
    out.extend_from_slice(b"if (")?;
    operand(out, &memory.enable)?;
    out.extend_from_slice(b") ")?;
    cell(out, &memory.name, &memory.index)?;
    out.extend_from_slice(b" <= ")?;
    operand(out, &memory.value)?;
    out.extend_from_slice(b";\n")
}

/// What memories take at each edge.
pub fn writes(out: &mut Vec<u8>, memories: &[Memory]) -> Result<(), AllocError>
    ensures { OnOk result (out.new.items ≡ out.old.items ++ flat_map (λ m. item_text (always_cell_of m)) memories.now) }
{
    for memory in memories {
        write(out, memory)?;
    }
    Ok(())
}
