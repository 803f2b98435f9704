//! What no command shows, by example: desks, lines at the front of a text, rows in a buffer, the layout of modules, what
//! a runner answers and refuses, a netlist written part by part, a dump written block by block, system files, machines on
//! the worked examples of the rules, the time-sliced machine, netlists joined and linked, and netlists with tags.
#![tactic(auto)]

#[cfg(test)]
mod ahead;
#[cfg(test)]
mod counters;
#[cfg(test)]
mod desks;
#[cfg(test)]
mod dumps;
#[cfg(test)]
mod given;
#[cfg(test)]
mod joined;
#[cfg(test)]
mod lines;
#[cfg(test)]
mod linked;
#[cfg(test)]
mod machines;
#[cfg(test)]
mod modules;
#[cfg(test)]
mod refusals;
#[cfg(test)]
mod rows;
#[cfg(test)]
mod slices;
#[cfg(test)]
mod systems;
#[cfg(test)]
mod tainted;
#[cfg(test)]
mod worked;
