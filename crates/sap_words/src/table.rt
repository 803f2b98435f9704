//! The commands and their table.

ghost use Rattle.std.specs.Prelude.{◌≡◌, bytes_eq, find, map, option_map};
ghost use Rattle.sap_words.specs.Found.{made_of_five};
ghost use Rattle.sap_words.specs.Headings.{heading, texts, written};
ghost use Rattle.sap_words.specs.Words.{commands, row_named, words_of};

use crate::number::number_of;
use crate::run_number::RunNumber;

/// Each command with the names of its operands.
pub static COMMANDS: [(&str, &[&str]); 15] = [
    ("compile", &["LATTICE", "DESIGN", "OUT"]),
    ("link", &["LATTICE", "SYSTEM", "OUT"]),
    ("run", &["LATTICE", "DESIGN", "STIM"]),
    ("trace", &["LATTICE", "DESIGN", "STIM"]),
    ("sim", &["LATTICE", "VERILOG", "STIM"]),
    ("taint", &["LATTICE", "VERILOG", "OUT"]),
    ("wave", &["LATTICE", "VERILOG", "STIM", "OUT"]),
    ("unwave", &["LATTICE", "WAVE"]),
    ("report", &["LATTICE", "DESIGN"]),
    ("twin", &["LATTICE", "DESIGN", "FIRST", "SECOND", "LEVEL"]),
    ("fmt", &["DESIGN"]),
    ("gen", &["N"]),
    ("machine", &[]),
    ("asm", &["A", "B", "N"]),
    ("cpu", &["A", "B", "N"]),
];

/// What each command does, in the order of the table.
pub static DOES: [&str; 15] = [
    "writes the module of a design to the file OUT",
    "writes one module of several designs that are clocked together to the file OUT",
    "runs a design on a stimulus, and writes a row a cycle",
    "runs a design on a stimulus, and writes a line for each refused command",
    "clocks a module of the subset, and writes a row a cycle",
    "writes a module of the subset with a tag for each name to the file OUT",
    "clocks a module of the subset, and writes its value change dump to the file OUT",
    "writes the rows of a value change dump",
    "writes codes of levels, what hangs on which commands, and check sites",
    "says whether two stimuli of a design agree at a level",
    "writes the canonical text of a design",
    "runs a generated design, N from 1 to 1000, and writes its counts and its last row",
    "writes the design of a machine whose time two users share",
    "writes the stimulus for that machine of two programs and N slices, N from 1 to 1000",
    "writes what the instruction table makes of two programs in N slices",
];

/// A command with its operands: names of files and of a level, and a number.
#[derive(Clone, Copy, Debug)]
pub enum Command<'a> {
    Compile {
        lattice: &'a str,
        design: &'a str,
        out: &'a str,
    },
    Link {
        lattice: &'a str,
        system: &'a str,
        out: &'a str,
    },
    Run {
        lattice: &'a str,
        design: &'a str,
        stimulus: &'a str,
    },
    Trace {
        lattice: &'a str,
        design: &'a str,
        stimulus: &'a str,
    },
    Fmt {
        design: &'a str,
    },
    Sim {
        lattice: &'a str,
        verilog: &'a str,
        stimulus: &'a str,
    },
    Taint {
        lattice: &'a str,
        verilog: &'a str,
        out: &'a str,
    },
    Wave {
        lattice: &'a str,
        verilog: &'a str,
        stimulus: &'a str,
        out: &'a str,
    },
    Unwave {
        lattice: &'a str,
        wave: &'a str,
    },
    Report {
        lattice: &'a str,
        design: &'a str,
    },
    Twin {
        lattice: &'a str,
        design: &'a str,
        first: &'a str,
        second: &'a str,
        level: &'a str,
    },
    Gen {
        number: RunNumber,
    },
    Machine,
    Asm {
        first: &'a str,
        second: &'a str,
        number: RunNumber,
    },
    Cpu {
        first: &'a str,
        second: &'a str,
        number: RunNumber,
    },
}

/// The command that the first of the values make by the row of this name, as many as it has operands.
pub(crate) fn made<'a>(
    name: &str,
    first: &'a str,
    second: &'a str,
    third: &'a str,
    fourth: &'a str,
    fifth: &'a str,
) -> Option<Command<'a>>
    ensures { option_map words_of result ≡ made_of_five name.now first.now second.now third.now fourth.now fifth.now }
{
    match name {
        "compile" => Some(Command::Compile {
            lattice: first,
            design: second,
            out: third,
        }),
        "link" => Some(Command::Link {
            lattice: first,
            system: second,
            out: third,
        }),
        "run" => Some(Command::Run {
            lattice: first,
            design: second,
            stimulus: third,
        }),
        "trace" => Some(Command::Trace {
            lattice: first,
            design: second,
            stimulus: third,
        }),
        "sim" => Some(Command::Sim {
            lattice: first,
            verilog: second,
            stimulus: third,
        }),
        "taint" => Some(Command::Taint {
            lattice: first,
            verilog: second,
            out: third,
        }),
        "wave" => Some(Command::Wave {
            lattice: first,
            verilog: second,
            stimulus: third,
            out: fourth,
        }),
        "unwave" => Some(Command::Unwave {
            lattice: first,
            wave: second,
        }),
        "report" => Some(Command::Report {
            lattice: first,
            design: second,
        }),
        "twin" => Some(Command::Twin {
            lattice: first,
            design: second,
            first: third,
            second: fourth,
            level: fifth,
        }),
        "fmt" => Some(Command::Fmt { design: first }),
        "gen" => Some(Command::Gen {
            number: number_of(first)?,
        }),
        "machine" => Some(Command::Machine),
        "asm" => Some(Command::Asm {
            first,
            second,
            number: number_of(third)?,
        }),
        "cpu" => Some(Command::Cpu {
            first,
            second,
            number: number_of(third)?,
        }),
        _ => None,
    }
}

fn row_in(
    rows: &[(&'static str, &'static [&'static str])],
    name: &str,
) -> Option<&'static [&'static str]>
    ensures { result ≡ option_map (λ h. h.1) (find (λ h. bytes_eq name.now h.0.now) rows.now) }
{
    rows.iter().find(|row| name == row.0).map(|row| row.1)
}

fn operands_in(
    rows: &[(&'static str, &'static [&'static str])],
    name: &str,
) -> Option<&'static [&'static str]>
    requires { map written rows.now ≡ map heading commands }
    ensures { option_map texts result ≡ option_map (λ r. r.operands) (row_named name.now) }
{
    row_in(rows, name)
}

/// The names of the operands of the command of this name.
pub(crate) fn operands_of(name: &str) -> Option<&'static [&'static str]>
    ensures { option_map texts result ≡ option_map (λ r. r.operands) (row_named name.now) }
{
    operands_in(&COMMANDS, name)
}
