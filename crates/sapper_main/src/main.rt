//! The program: the words of its command line over the host's desk.
#![tactic(auto)]

use sap_desk::HostDesk;
use sap_help::answer;
use sapper::sapper;
use std::alloc::AllocError;
use std::env;
use std::io::{ErrorKind, Write};
use std::process::ExitCode;
use std::rt::Env;

// The words behind the program's name; none where one of them isn't UTF-8.
fn words(rt: &(impl Env + AllocGlobal)) -> Result<Vec<String>, AllocError> {
    let mut words = Vec::new(rt.alloc());
    match env::args(rt) {
        Ok(args) => {
            for word in args.skip(1) {
                words.push(word)?;
            }
        }
        Err(error) => {
            if error.kind() == ErrorKind::OutOfMemory {
                return Err(AllocError);
            }
        }
    }
    Ok(words)
}

// Tells want of memory, and gives its status.
fn no_memory(mut errors: impl Write + Drop) -> u8 {
    let _ = errors.write_all(b"memory\n");
    7
}

fn main(rt: HostRuntime) -> ExitCode {
    let alloc = rt.alloc();
    let (output, errors, spare) = (rt.stdout(), rt.stderr(), rt.stderr());
    let status = match words(&rt) {
        Ok(words) => match HostDesk::new(alloc, rt, output, errors) {
            Ok(mut desk) => match answer(alloc, &mut desk, &words) {
                Some(status) => status,
                None => sapper(alloc, &words, &mut desk),
            },
            Err(_) => no_memory(spare),
        },
        Err(_) => no_memory(spare),
    };
    ExitCode::from(status)
}
