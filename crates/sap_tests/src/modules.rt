//! The layout of printed modules, and what a runner doesn't answer.

use crate::given::is_printed_as;
use sap_cycle::runner::Runner;
use sap_vread::read;
use std::alloc::Global;

const TWO_REGISTERS: &str =
    "module top(input clk, output reg[7:0]v_x, output reg[0:0]t_x, output reg[7:0]v_y, output reg[0:0]t_y);
        initial v_x=8'd01; always@(posedge clk)v_x<=v_y; initial v_y=8'd2; always@(posedge clk)v_y<=v_x;
        initial t_x=1'd0; initial t_y=1'd0; always@(posedge clk)t_x<=t_y; always@(posedge clk)t_y<=t_x; endmodule";

const TWO_REGISTERS_PRINTED: &str = "// written by sapper
module top(
  input clk,
  output reg [7:0] v_x,
  output reg [0:0] t_x,
  output reg [7:0] v_y,
  output reg [0:0] t_y
);
initial v_x = 8'd1;
initial t_x = 1'd0;
initial v_y = 8'd2;
initial t_y = 1'd0;
always @(posedge clk) v_x <= v_y;
always @(posedge clk) t_x <= t_y;
always @(posedge clk) v_y <= v_x;
always @(posedge clk) t_y <= t_x;
endmodule
";

// An input, two wires that are ports, a register that sums the input, and a memory whose last cell takes the sum.
const SUMMING: &str = "// written by sapper
module top(
  input clk,
  input [7:0] a,
  output wire [7:0] b,
  output wire [7:0] c,
  output reg [7:0] d
);
reg [7:0] e [0:3];
integer i;
assign b = a + d;
assign c = e[2'd3];
initial d = 8'd0;
initial for (i = 0; i < 4; i = i + 1) e[i] = 8'd0;
always @(posedge clk) d <= b;
always @(posedge clk) if (1'd1) e[2'd3] <= b;
endmodule
";

const MODULES: [(&str, &str); 2] = [(TWO_REGISTERS, TWO_REGISTERS_PRINTED), (SUMMING, SUMMING)];

fn is_laid_out_as(alloc: Global, module: &str, text: &str) -> bool {
    match read(alloc, module.as_bytes()) {
        Ok(netlist) => is_printed_as(alloc, &netlist, text),
        Err(_) => false,
    }
}

#[test]
fn a_module_is_printed_in_one_layout(rt: HostRuntime) {
    let alloc = rt.alloc();
    for (module, text) in MODULES {
        assert!(rt; is_laid_out_as(alloc, module, text), "{text}");
    }
}

fn answers_before_the_first_step(alloc: Global) -> bool {
    let Ok(netlist) = read(alloc, SUMMING.as_bytes()) else {
        return false;
    };
    let Ok(runner) = Runner::load(alloc, netlist) else {
        return false;
    };
    matches!(runner.value("d"), Some(0))
        && runner.value("a").is_none()
        && runner.value("b").is_none()
        && runner.value("c").is_none()
        && runner.value("e").is_none()
        && runner.value("clk").is_none()
        && runner.value("zz").is_none()
        && matches!(runner.cell("e", 3), Some(0))
        && runner.cell("e", 4).is_none()
        && runner.cell("d", 0).is_none()
        && runner.find("e").is_none()
}

#[test]
fn a_runner_answers_of_registers_and_cells_before_the_first_step(rt: HostRuntime) {
    assert!(rt; answers_before_the_first_step(rt.alloc()));
}
