//! The commands: what each asks, done over a desk, and how it ends.
#![tactic(auto)]

ghost use Rattle.sap_words.specs.Words.{words_of};
ghost use Rattle.sap_commands.specs.Commands.{asks};
ghost use Rattle.sap_files.specs.Steps.{Ends, ending_of, seen};

mod asm;
mod compile;
mod cpu;
mod fmt;
mod generate;
mod laws;
mod link;
mod machine;
mod report;
mod run;
mod sim;
mod taint;
mod trace;
mod twin;
mod unwave;
mod wave;

pub use laws::{one_cause, one_output};
use sap_desk::Desk;
use sap_files::failure::Failure;
use sap_words::Command;
use std::alloc::Global;

/// Does what a command asks over a desk. It ends by what the words and files ask, or for a failed call or want of memory; its line isn't written.
pub fn perform<'a, D: Desk>(
    alloc: Global,
    desk: &mut D,
    command: Command<'a>,
) -> Result<(), Failure<'a>>
    ensures ends { Ends (asks (words_of command.entry)) (ending_of result) (seen D.told D.faults D.lost D.sure desk.old) (seen D.told D.faults D.lost D.sure desk.new) }
{
    match command {
        Command::Compile {
            lattice,
            design,
            out,
        } => compile::compile(alloc, desk, lattice, design, out),
        Command::Link {
            lattice,
            system,
            out,
        } => link::link(alloc, desk, lattice, system, out),
        Command::Run {
            lattice,
            design,
            stimulus,
        } => run::run(alloc, desk, lattice, design, stimulus),
        Command::Trace {
            lattice,
            design,
            stimulus,
        } => trace::trace(alloc, desk, lattice, design, stimulus),
        Command::Fmt { design } => fmt::fmt(alloc, desk, design),
        Command::Sim {
            lattice,
            verilog,
            stimulus,
        } => sim::sim(alloc, desk, lattice, verilog, stimulus),
        Command::Taint {
            lattice,
            verilog,
            out,
        } => taint::taint(alloc, desk, lattice, verilog, out),
        Command::Wave {
            lattice,
            verilog,
            stimulus,
            out,
        } => wave::wave(alloc, desk, lattice, verilog, stimulus, out),
        Command::Unwave { lattice, wave } => unwave::unwave(alloc, desk, lattice, wave),
        Command::Report { lattice, design } => report::report(alloc, desk, lattice, design),
        Command::Twin {
            lattice,
            design,
            first,
            second,
            level,
        } => twin::twin(alloc, desk, lattice, design, first, second, level),
        Command::Gen { number } => generate::generate(alloc, desk, number),
        Command::Machine => machine::machine(desk),
        Command::Asm {
            first,
            second,
            number,
        } => asm::asm(alloc, desk, first, second, number.value),
        Command::Cpu {
            first,
            second,
            number,
        } => cpu::cpu(alloc, desk, first, second, number.value),
    }
}
