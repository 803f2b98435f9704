//! How large designs, programs and netlists are, and how many items a netlist may have.
#![tactic(auto)]
