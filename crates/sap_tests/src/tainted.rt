//! Netlists with tags: the text of their modules, and which name is the first whose tag's name is taken.

use crate::given::{DIAMOND, TWO, is_printed_as, two};
use sap_latfile::read_lattice;
use sap_net::netlist::Netlist;
use sap_taint_pass::fault::TaintFault;
use sap_taint_pass::taint::taint;
use sap_vread::read;
use std::alloc::Global;

/// v_x takes its sum with the input, and v_y what v_x was.
pub const HANDING_ON: &str =
    "module top(input clk, input [7:0] v_a, output reg [7:0] v_x, output reg [7:0] v_y);
wire [7:0] n1;
assign n1 = v_x + v_a;
initial v_x = 8'd0;
initial v_y = 8'd3;
always @(posedge clk) v_x <= n1;
always @(posedge clk) v_y <= v_x;
endmodule
";

/// Cell 0 takes v_d where v_e is 1, and v_y what the cell was.
pub const STORING: &str =
    "module top(input clk, input [0:0] v_e, input [7:0] v_d, output reg [7:0] v_y);
wire [7:0] n1;
reg [7:0] v_m [0:1];
integer i;
assign n1 = v_m[1'd0];
initial v_y = 8'd0;
initial for (i = 0; i < 2; i = i + 1) v_m[i] = 8'd0;
always @(posedge clk) v_y <= n1;
always @(posedge clk) if (v_e) v_m[1'd0] <= v_d;
endmodule
";

/// The module of a text with tags over a lattice, or why it gets none.
fn tainted(alloc: Global, levels: &[u8], module: &str) -> Option<Result<Netlist, TaintFault>> {
    let lattice = read_lattice(alloc, levels).ok()?;
    let netlist = read(alloc, module.as_bytes()).ok()?;
    Some(taint(alloc, &netlist, &lattice))
}

const HANDING_TAGS_ON: &str = "// written by sapper
module top(
  input clk,
  input [7:0] v_a,
  input [0:0] t_a,
  output reg [7:0] v_x,
  output reg [0:0] t_x,
  output reg [7:0] v_y,
  output reg [0:0] t_y
);
wire [7:0] n1;
wire [0:0] t_n1;
assign n1 = v_x + v_a;
assign t_n1 = t_x | t_a;
initial v_x = 8'd0;
initial t_x = 1'd0;
initial v_y = 8'd3;
initial t_y = 1'd0;
always @(posedge clk) v_x <= n1;
always @(posedge clk) t_x <= t_n1;
always @(posedge clk) v_y <= v_x;
always @(posedge clk) t_y <= t_x;
endmodule
";

// The name n1 is taken, so that helping wires begin with n2.
const STORING_TAGS: &str = "// written by sapper
module top(
  input clk,
  input [0:0] v_e,
  input [1:0] t_e,
  input [7:0] v_d,
  input [1:0] t_d,
  output reg [7:0] v_y,
  output reg [1:0] t_y
);
wire [7:0] n1;
wire [1:0] t_n1;
reg [7:0] v_m [0:1];
reg [1:0] t_m;
wire [1:0] n2;
wire [1:0] n3;
wire [1:0] n4;
wire [1:0] n5;
integer i;
assign n1 = v_m[1'd0];
assign t_n1 = t_m;
assign n2 = t_m | t_e;
assign n3 = t_d;
assign n4 = v_e ? n3 : 2'd0;
assign n5 = n2 | n4;
initial v_y = 8'd0;
initial t_y = 2'd0;
initial t_m = 2'd0;
initial for (i = 0; i < 2; i = i + 1) v_m[i] = 8'd0;
always @(posedge clk) v_y <= n1;
always @(posedge clk) t_y <= t_n1;
always @(posedge clk) t_m <= n5;
always @(posedge clk) if (v_e) v_m[1'd0] <= v_d;
endmodule
";

// All operands count: of a choice the condition and both arms, of a concatenation each; a constant has no tag.
const CHOOSING: &str =
    "module top(input clk, input [0:0] v_c, input [3:0] v_a, output wire [3:0] v_b, output wire [11:0] v_d, output wire [3:0] v_k);
assign v_b = v_c ? v_a : v_a;
assign v_d = {v_a, v_b, 3'd0, v_c};
assign v_k = 4'd9;
endmodule
";

const CHOOSING_TAGS: &str = "// written by sapper
module top(
  input clk,
  input [0:0] v_c,
  input [0:0] t_c,
  input [3:0] v_a,
  input [0:0] t_a,
  output wire [3:0] v_b,
  output wire [0:0] t_b,
  output wire [11:0] v_d,
  output wire [0:0] t_d,
  output wire [3:0] v_k,
  output wire [0:0] t_k
);
wire [0:0] n1;
wire [0:0] n2;
assign v_b = v_c ? v_a : v_a;
assign v_d = {v_a, v_b, 3'd0, v_c};
assign v_k = 4'd9;
assign n1 = t_c | t_a;
assign t_b = n1 | t_a;
assign n2 = t_a | t_b;
assign t_d = n2 | t_c;
assign t_k = 1'd0;
endmodule
";

/// A lattice, a module, and its text with tags.
const TEXTS: [(&[u8], &str, &str); 3] = [
    // each name has its tag behind it
    (TWO, HANDING_ON, HANDING_TAGS_ON),
    // a memory has one tag, which is a register
    (DIAMOND, STORING, STORING_TAGS),
    // tags are joined by two
    (TWO, CHOOSING, CHOOSING_TAGS),
];

fn is_tainted_as(alloc: Global, levels: &[u8], module: &str, text: &str) -> bool {
    match tainted(alloc, levels, module) {
        Some(Ok(netlist)) => is_printed_as(alloc, &netlist, text),
        _ => false,
    }
}

#[test]
fn a_module_with_tags_has_this_text(rt: HostRuntime) {
    let alloc = rt.alloc();
    for (levels, module, text) in TEXTS {
        assert!(rt; is_tainted_as(alloc, levels, module, text), "{text}");
    }
}

fn is_told_as(alloc: Global, fault: &TaintFault, text: &str) -> bool {
    let mut out = String::new(alloc);
    match write!(out, "module: {fault}") {
        Ok(()) => out.as_str() == text,
        Err(_) => false,
    }
}

fn is_refused_as(alloc: Global, module: &str, text: &str) -> bool {
    match tainted(alloc, TWO, module) {
        Some(Err(fault)) => is_told_as(alloc, &fault, text),
        _ => false,
    }
}

const CLASHES: [(&str, &str); 5] = [
    // a tag would have a declared name
    (
        "module top(input clk, output reg [7:0] v_x, output reg [0:0] t_x);
initial v_x = 8'd1; initial t_x = 1'd0; always @(posedge clk) v_x <= v_x; always @(posedge clk) t_x <= t_x; endmodule",
        "module: X1 v_x",
    ),
    // ... which is declared behind; `v_` is no `v_x`
    (
        "module top(input clk, input [7:0] v_a, output wire [7:0] t_v_); wire [7:0] v_; assign v_ = v_a; assign t_v_ = v_; endmodule",
        "module: X1 v_",
    ),
    // two tags would have one name
    (
        "module top(input clk, input [7:0] v_x, output wire [7:0] x); assign x = v_x; endmodule",
        "module: X1 x",
    ),
    // a tag would have the module's
    (
        "module t_y(input clk, input [7:0] v_x, output wire [7:0] v_y); assign v_y = v_x; endmodule",
        "module: X1 v_y",
    ),
    // the first of two
    (
        "module top(input clk, input [7:0] v_x, input [7:0] v_y, output wire [7:0] t_y, output wire [7:0] t_x); assign t_y = v_x; assign t_x = v_y; endmodule",
        "module: X1 v_x",
    ),
];

#[test]
fn the_first_clash_is_named(rt: HostRuntime) {
    let alloc = rt.alloc();
    for (module, text) in CLASHES {
        assert!(rt; is_refused_as(alloc, module, text), "{text}");
    }
}

const ROOM: [&str; 3] = [
    // a declared name is the module's
    "module v_x(input clk, input [7:0] v_x, output wire [7:0] v_y); assign v_y = v_x; endmodule",
    // `v_` alone has the tag `t_v_`
    "module top(input clk, input [7:0] v_, output wire [7:0] v_w); assign v_w = v_; endmodule",
    // a name like that of a tag has a tag itself
    "module top(input clk, input [7:0] a, input [0:0] t_t, output wire [7:0] b); assign b = a; endmodule",
];

#[test]
fn where_names_differ_there_is_room(rt: HostRuntime) {
    let alloc = rt.alloc();
    for module in ROOM {
        assert!(rt;
            matches!(tainted(alloc, TWO, module), Some(Ok(_))),
            "{module}"
        );
    }
}

fn is_refused_again(alloc: Global, module: &str, text: &str) -> bool {
    let (Some(lattice), Some(Ok(netlist))) = (two(alloc), tainted(alloc, TWO, module)) else {
        return false;
    };
    match taint(alloc, &netlist, &lattice) {
        Ok(_) => false,
        Err(fault) => is_told_as(alloc, &fault, text),
    }
}

#[test]
fn a_netlist_gets_tags_once(rt: HostRuntime) {
    assert!(rt; is_refused_again(rt.alloc(), HANDING_ON, "module: X1 v_a"));
}
