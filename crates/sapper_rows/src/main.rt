//! Runs tables of rows by the top call over desks in memory, and tells the rows that came out otherwise than they say.
//!
//! The words of its command line are the files of the tables.
#![tactic(auto)]

use sap_desk::MemoryDesk;
use sap_help::answer;
use sap_rows::{
    Answer, Circumstance, File, Row, Seen, Step, Target, behind, bytes_put, further_run,
    further_runs, push_counts, push_difference, push_refusal, read_table, steps_of,
};
use sapper::sapper;
use std::alloc::{AllocError, Global};
use std::io::{self, Write};
use std::process::ExitCode;
use std::{env, fs};

// The room of a desk's channels and of the files that are written.
const ROOM: usize = 1 << 20;

fn call(alloc: Global, desk: &mut MemoryDesk, step: &Step) -> Answer {
    match step.target {
        Target::TopCall => Answer::Status(sapper(alloc, &step.words, desk)),
        Target::Help => match answer(alloc, desk, &step.words) {
            Some(status) => Answer::Status(status),
            None => Answer::Nothing,
        },
    }
}

// Puts the files of a step, and makes calls fail.
fn prepare(
    desk: &mut MemoryDesk,
    step: &Step,
    circumstance: Circumstance,
) -> Result<(), AllocError> {
    for file in &step.files {
        desk.put_file(&file.name, bytes_put(step, file, circumstance))?;
    }
    for number in &step.failing {
        desk.fail_at(*number)?;
    }
    if let Circumstance::Failing(number) = circumstance {
        desk.fail_at(number as u64)?;
    }
    Ok(())
}

fn file_of(alloc: Global, name: &str, bytes: &[u8]) -> Result<File, AllocError> {
    let name = String::from_str(alloc, name)?;
    let bytes = bytes.to_vec(alloc)?;
    Ok(File { name, bytes })
}

// Appends a file, where there is one of this name.
fn push_file(
    alloc: Global,
    files: &mut Vec<File>,
    desk: &MemoryDesk,
    name: &str,
) -> Result<(), AllocError> {
    if let Some(bytes) = desk.file(name) {
        files.push(file_of(alloc, name, bytes)?)?;
    }
    Ok(())
}

// Appends the files that there are of those that a step names.
fn push_files(
    alloc: Global,
    files: &mut Vec<File>,
    desk: &MemoryDesk,
    step: &Step,
) -> Result<(), AllocError> {
    for file in &step.files {
        push_file(alloc, files, desk, &file.name)?;
    }
    for held in &step.held {
        push_file(alloc, files, desk, &held.file.name)?;
    }
    Ok(())
}

// The files that there are of those that a row names.
fn files_of(alloc: Global, desk: &MemoryDesk, row: &Row) -> Result<Vec<File>, AllocError> {
    let mut files = Vec::new(alloc);
    for step in &row.steps {
        push_files(alloc, &mut files, desk, step)?;
    }
    Ok(files)
}

fn make_call(
    alloc: Global,
    desk: &mut MemoryDesk,
    row: &Row,
    step: &Step,
) -> Result<Seen, AllocError> {
    let written = desk.output().len();
    let told = desk.fault_text().len();
    let answer = call(alloc, desk, step);
    let output = behind(desk.output(), written).to_vec(alloc)?;
    let faults = behind(desk.fault_text(), told).to_vec(alloc)?;
    let files = files_of(alloc, desk, row)?;
    Ok(Seen {
        answer,
        output,
        faults,
        files,
    })
}

// Makes the calls of a row over one desk, and gives what they left.
fn run_over(
    alloc: Global,
    desk: &mut MemoryDesk,
    row: &Row,
    circumstance: Circumstance,
) -> Result<Vec<Seen>, AllocError> {
    let mut seen = Vec::new(alloc);
    for step in steps_of(row, circumstance) {
        prepare(desk, step, circumstance)?;
        seen.push(make_call(alloc, desk, row, step)?)?;
    }
    Ok(seen)
}

fn run(alloc: Global, row: &Row, circumstance: Circumstance) -> Result<Vec<Seen>, AllocError> {
    let mut desk = MemoryDesk::new(alloc, ROOM)?;
    run_over(alloc, &mut desk, row, circumstance)
}

// Runs a row, and tells the first run in which it comes out otherwise; whether one does.
fn run_row(alloc: Global, out: &mut String, table: &str, row: &Row) -> Result<bool, AllocError> {
    let whole = run(alloc, row, Circumstance::AsItStands)?;
    if push_difference(out, table, row, Circumstance::AsItStands, &whole, &whole)? {
        return Ok(true);
    }
    for number in 0..further_runs(row) {
        let circumstance = further_run(row, number);
        let seen = run(alloc, row, circumstance)?;
        if push_difference(out, table, row, circumstance, &whole, &seen)? {
            return Ok(true);
        }
    }
    Ok(false)
}

fn run_rows(alloc: Global, out: &mut String, table: &str, rows: &[Row]) -> Result<(), AllocError> {
    let mut differing = 0u64;
    for row in rows {
        if run_row(alloc, out, table, row)? {
            differing = differing.saturating_add(1);
        }
    }
    push_counts(out, table, rows.len(), differing)
}

// Runs the table with these bytes; whether it is taken.
fn run_table(
    alloc: Global,
    out: &mut String,
    table: &str,
    bytes: &[u8],
) -> Result<bool, AllocError> {
    match read_table(alloc, bytes) {
        Ok(rows) => {
            run_rows(alloc, out, table, &rows)?;
            Ok(true)
        }
        Err(refusal) => {
            push_refusal(out, table, refusal)?;
            Ok(false)
        }
    }
}

fn run_file(rt: &HostRuntime, table: &str) -> io::Result<bool> {
    let bytes = fs::read(rt, table)?;
    let mut out = String::new(rt.alloc());
    let is_taken = run_table(rt.alloc(), &mut out, table, bytes.as_slice())?;
    rt.stdout().write_all(out.as_bytes())?;
    Ok(is_taken)
}

// Runs one table after another up to the first that is refused; whether none is.
fn run_files(rt: &HostRuntime) -> io::Result<bool> {
    for table in env::args(rt)?.skip(1) {
        if !run_file(rt, &table)? {
            return Ok(false);
        }
    }
    Ok(true)
}

fn main(rt: HostRuntime) -> ExitCode {
    match run_files(&rt) {
        Ok(true) => ExitCode::SUCCESS,
        _ => ExitCode::FAILURE,
    }
}
