//! Part p, which adds 1 to its input, feeds part q, which copies its input.

use crate::given::name;
use sap_joined::{Feed, NamedNet, join};
use sap_net::parts::{Name, Operand, Parts, PortKind, Right, Wire};
use sap_vread::read;
use std::alloc::{AllocError, Global};

const ADDS: &str =
    "module top(input clk, input[7:0]v_a, input[0:0]t_a, output reg[7:0]v_x, output reg[0:0]t_x,
    output wire[0:0]c_1); wire[7:0]n0; reg[0:0]t_S; assign n0=v_a+8'd1; assign c_1=1'd0;
    initial v_x=8'd0; initial t_x=1'd0; initial t_S=1'd0;
    always@(posedge clk)v_x<=n0; always@(posedge clk)t_x<=t_a; always@(posedge clk)t_S<=t_S; endmodule";

const COPIES: &str =
    "module top(input clk, input[7:0]v_b, input[0:0]t_b, output reg[7:0]v_y, output reg[0:0]t_y,
    output wire[0:0]c_1); reg[0:0]t_S; assign c_1=1'd0;
    initial v_y=8'd0; initial t_y=1'd0; initial t_S=1'd0;
    always@(posedge clk)v_y<=v_b; always@(posedge clk)t_y<=t_b; always@(posedge clk)t_S<=t_S; endmodule";

const THROUGH_A_LEVEL: &[u8] =
    b" v_p_a t_p_a v_p_x t_p_x v_q_y t_q_y c_p_1 c_q_1 v_q_b t_q_b j_q_b b_q_b n0p_ t_p_S t_q_S
 v_p_a:I t_p_a:I v_p_x:R t_p_x:R v_q_y:R t_q_y:R c_p_1:W c_q_1:W v_q_b:W t_q_b:W
 v_p_a t_p_a
 j_q_b b_q_b v_q_b t_q_b n0p_ c_p_1 c_q_1
 v_p_x t_p_x v_q_y t_q_y t_p_S t_q_S
";

fn add(out: &mut Vec<u8>, name: &Name) -> Result<(), AllocError> {
    out.push(b' ')?;
    out.extend_from_slice(name.as_bytes())?;
    Ok(())
}

fn letter(kind: PortKind) -> u8 {
    match kind {
        PortKind::Input => b'I',
        PortKind::Register => b'R',
        PortKind::Wire => b'W',
    }
}

// Names, ports, inputs, wires and registers, a line each.
fn listed(alloc: Global, parts: &Parts) -> Result<Vec<u8>, AllocError> {
    let mut out = Vec::new(alloc);
    for name in &parts.names {
        add(&mut out, name)?;
    }
    out.push(b'\n')?;
    for port in &parts.ports {
        add(&mut out, &port.name)?;
        out.push(b':')?;
        out.push(letter(port.kind))?;
    }
    out.push(b'\n')?;
    for input in &parts.inputs {
        add(&mut out, &input.name)?;
    }
    out.push(b'\n')?;
    for wire in &parts.wires {
        add(&mut out, &wire.name)?;
    }
    out.push(b'\n')?;
    for register in &parts.registers {
        add(&mut out, &register.name)?;
    }
    out.push(b'\n')?;
    Ok(out)
}

fn is_named(operand: &Operand, text: &str) -> bool {
    match operand {
        Operand::Named(name) => name.as_str() == text,
        Operand::Constant { .. } => false,
    }
}

// The number of p's register where it is at or below the level, else 0.
fn is_tested(wire: &Wire) -> bool {
    match &wire.right {
        Right::Choose(test, value, Operand::Constant { width: 8, value: 0 }) => {
            is_named(test, "b_q_b") && is_named(value, "v_p_x")
        }
        _ => false,
    }
}

// Part p, then part q, and the wire from p's register to q's input.
fn joined(alloc: Global, level: Option<u64>) -> Option<Parts> {
    let adds = read(alloc, ADDS.as_bytes()).ok()?;
    let copies = read(alloc, COPIES.as_bytes()).ok()?;
    let p = name(alloc, "p").ok()?;
    let q = name(alloc, "q").ok()?;
    let x = name(alloc, "x").ok()?;
    let b = name(alloc, "b").ok()?;
    let parts = [
        NamedNet {
            name: &p,
            netlist: &adds,
        },
        NamedNet {
            name: &q,
            netlist: &copies,
        },
    ];
    let feeds = [Feed {
        from_part: &p,
        from: &x,
        to_part: &q,
        to: &b,
        width: 8,
        level,
    }];
    join(alloc, 1, &parts, &feeds).ok()
}

#[test]
fn the_wires_of_a_level_stand_in_front(rt: HostRuntime) {
    let Some(parts) = joined(rt.alloc(), Some(0)) else {
        assert!(rt; false);
        return;
    };
    assert!(rt;
        matches!(listed(rt.alloc(), &parts), Ok(lines) if lines.as_slice() == THROUGH_A_LEVEL)
    );
    assert!(rt; parts.wires.len() > 2);
    assert!(rt; is_tested(&parts.wires[2]));
}

#[test]
fn without_a_level_there_are_two(rt: HostRuntime) {
    let Some(parts) = joined(rt.alloc(), None) else {
        assert!(rt; false);
        return;
    };
    assert!(rt; parts.wires.len() == 5);
    assert!(rt; matches!(&parts.wires[0].right, Right::Copy(value) if is_named(value, "v_p_x")));
}
