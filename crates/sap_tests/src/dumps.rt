//! A dump that is written block by block.

ghost use Rattle.std.specs.Prelude.{◌≡◌, [], true};
ghost use Rattle.sap_net.specs.Runs.{InputsFit};

use sap_cycle::runner::Runner;
use sap_net::parts::Input;
use sap_vread::read;
use sap_wave::Dumper;
use std::alloc::{AllocError, Global};

/// Two registers that exchange their numbers, with their tags.
const EXCHANGING: &[u8] =
    b"module top(input clk, output reg [7:0] v_x, output reg [0:0] t_x, output reg [7:0] v_y, output reg [0:0] t_y);
initial v_x = 8'd1;
initial t_x = 1'd0;
initial v_y = 8'd2;
initial t_y = 1'd0;
always @(posedge clk) v_x <= v_y;
always @(posedge clk) t_x <= t_y;
always @(posedge clk) v_y <= v_x;
always @(posedge clk) t_y <= t_x;
endmodule
";

const HEAD: &[u8] = b"$timescale 1ns $end
$scope module top $end
$var reg 8 ! v_x $end
$var reg 1 \" t_x $end
$var reg 8 # v_y $end
$var reg 1 $ t_y $end
$upscope $end
$enddefinitions $end
#0
b00000001 !
b0 \"
b00000010 #
b0 $
";

/// Whether there are no inputs.
fn is_closed(inputs: &[Input]) -> bool
    ensures { result ≡ true → InputsFit inputs.now [] }
{
    match inputs {
        [] => true,
        _ => false,
    }
}

// The numbers change places at each edge. A block without an edge before it has no change.
fn writes_as_told(alloc: Global) -> Result<bool, AllocError> {
    let Ok(netlist) = read(alloc, EXCHANGING) else {
        return Ok(false);
    };
    let mut dumper = Dumper::load(alloc, &netlist)?;
    if dumper.head(alloc)?.as_slice() != HEAD || !is_closed(netlist.inputs()) {
        return Ok(false);
    }
    let Ok(mut runner) = Runner::load(alloc, netlist) else {
        return Err(AllocError);
    };
    runner.step(&[]);
    dumper.write_block(&runner);
    let is_first = dumper.block() == b"#1\nb00000010 !\nb00000001 #\n".as_slice();
    runner.step(&[]);
    dumper.write_block(&runner);
    let is_second = dumper.block() == b"#2\nb00000001 !\nb00000010 #\n".as_slice();
    dumper.write_block(&runner);
    Ok(is_first && is_second && dumper.block() == b"#3\n".as_slice())
}

#[test]
fn a_block_has_the_variables_that_changed(rt: HostRuntime) {
    assert!(rt; matches!(writes_as_told(rt.alloc()), Ok(true)));
}
