//! Desks by examples: one over the host's files, others in memory.

use sap_desk::{
    Desk, DeskError, HostDesk, MemoryDesk, read_file, write_file, write_line, write_output,
};
use std::alloc::Global;
use std::fs;
use std::test::Fail;

/// A desk over the host's files whose two streams are buffers.
type Host<'a> = HostDesk<&'a HostRuntime, &'a mut Vec<u8>, &'a mut Vec<u8>>;

/// Whether a file holds these bytes, or where none are wanted isn't there.
fn gives(alloc: Global, desk: &mut Host<'_>, name: &str, wanted: Option<&[u8]>) -> bool {
    match read_file(alloc, desk, name) {
        Ok(held) => wanted == Some(held.as_slice()),
        Err(DeskError::Failed) => wanted.is_none(),
        Err(DeskError::Memory) => false,
    }
}

/// Whether a missing file fails, and a file holds what is written to it.
fn keeps(alloc: Global, desk: &mut Host<'_>, name: &str, bytes: &[u8]) -> bool {
    gives(alloc, desk, name, None)
        && write_file(desk, name, bytes).is_ok()
        && gives(alloc, desk, name, Some(bytes))
}

fn keeps_a_file(alloc: Global, rt: &HostRuntime) -> bool {
    let mut output = Vec::new(alloc);
    let mut errors = Vec::new(alloc);
    match HostDesk::new(alloc, rt, &mut output, &mut errors) {
        Ok(mut desk) => keeps(alloc, &mut desk, "made", &[b'x'; 5000]),
        Err(_) => false,
    }
}

#[test]
fn the_host_keeps_what_is_written_to_a_file(rt: HostRuntime) {
    assert!(rt; keeps_a_file(rt.alloc(), &rt) && fs::remove_file(&rt, "made").is_ok());
}

/// Whether the output and the fault lines take a text each, and no line once they are finished.
fn takes_texts(desk: &mut Host<'_>) -> bool {
    write_output(desk, b"row").is_ok()
        && write_line(desk, &[b"desk: ", b"no such file"]).is_ok()
        && desk.finish(2).is_ok()
        && write_line(desk, &[b"late"]).is_err()
}

#[test]
fn the_host_has_an_output_and_a_place_for_fault_lines(rt: HostRuntime) -> Result<(), Fail> {
    let alloc = rt.alloc();
    let mut output = Vec::new(alloc);
    let mut errors = Vec::new(alloc);
    let mut desk = HostDesk::new(alloc, &rt, &mut output, &mut errors)?;
    assert!(rt; takes_texts(&mut desk));
    drop(desk);
    assert!(rt; output.as_slice() == b"row".as_slice());
    assert!(rt; errors.as_slice() == b"desk: no such file\n".as_slice());
    Ok(())
}

/// A call on a desk in memory with what it answers, or what the desk then holds.
enum Call {
    Put(&'static str, &'static [u8]),
    FailAt(u64),
    /// The channel, or none where the call fails.
    OpenIn(&'static str, Option<usize>),
    Create(&'static str, Option<usize>),
    /// What room for three bytes takes.
    Read(usize, Option<&'static [u8]>),
    Write(usize, &'static [u8], bool),
    Finish(usize, bool),
    File(&'static str, Option<&'static [u8]>),
    Output(&'static [u8]),
    FaultText(&'static [u8]),
}

fn is_channel(answer: Result<usize, DeskError>, wanted: Option<usize>) -> bool {
    match answer {
        Ok(channel) => wanted == Some(channel),
        Err(DeskError::Failed) => wanted.is_none(),
        Err(DeskError::Memory) => false,
    }
}

fn is_text(bytes: &[u8], wanted: Option<&[u8]>) -> bool {
    match wanted {
        Some(text) => bytes == text,
        None => false,
    }
}

fn reads(desk: &mut MemoryDesk, channel: usize, wanted: Option<&[u8]>) -> bool {
    let mut piece = [0u8; 3];
    match desk.read(channel, &mut piece) {
        Ok(count) => is_text(&piece[..count], wanted),
        Err(_) => wanted.is_none(),
    }
}

fn holds(desk: &MemoryDesk, name: &str, wanted: Option<&[u8]>) -> bool {
    match desk.file(name) {
        Some(bytes) => is_text(bytes, wanted),
        None => wanted.is_none(),
    }
}

/// Makes a call; whether it answers what is said.
fn is_so(desk: &mut MemoryDesk, call: &Call) -> bool {
    match call {
        Call::Put(name, bytes) => desk.put_file(name, bytes).is_ok(),
        Call::FailAt(number) => desk.fail_at(*number).is_ok(),
        Call::OpenIn(name, channel) => is_channel(desk.open_in(name), *channel),
        Call::Create(name, channel) => is_channel(desk.create(name), *channel),
        Call::Read(channel, bytes) => reads(desk, *channel, *bytes),
        Call::Write(channel, bytes, done) => desk.write(*channel, bytes).is_ok() == *done,
        Call::Finish(channel, done) => desk.finish(*channel).is_ok() == *done,
        Call::File(name, bytes) => holds(desk, name, *bytes),
        Call::Output(bytes) => is_text(desk.output(), Some(bytes)),
        Call::FaultText(bytes) => is_text(desk.fault_text(), Some(bytes)),
    }
}

/// Calls one after another on a new desk with so much room.
struct Trial {
    room: usize,
    calls: &'static [Call],
}

static TRIALS: [Trial; 4] = [
    // reads what there is and fits
    Trial {
        room: 0,
        calls: &[
            Call::Put("a", b"old"),
            Call::Put("a", b"abcd"),
            Call::OpenIn("a", Some(3)),
            Call::Read(3, Some(b"abc")),
            Call::Read(3, Some(b"d")),
            Call::Read(3, Some(b"")),
            Call::Finish(3, true),
            Call::Read(3, None),
            Call::OpenIn("b", None),
        ],
    },

    // keeps room on each channel
    Trial {
        room: 4,
        calls: &[
            Call::Write(1, b"abc", true),
            Call::Write(1, b"def", false),
            Call::Output(b"abcd"),
            Call::Write(2, b"line", true),
            Call::Finish(2, true),
            Call::Write(2, b"", false),
            Call::FaultText(b"line"),
        ],
    },

    // fails at the listed calls
    Trial {
        room: 9,
        calls: &[
            Call::FailAt(1),
            Call::FailAt(3),
            Call::Create("a", None),
            Call::File("a", None),
            Call::Create("a", Some(3)),
            Call::Write(3, b"abcde", false),
            Call::Write(3, b"cd", true),
            Call::File("a", Some(b"abcd")),
        ],
    },

    // fails on a channel that isn't open for the call: channel 3 is open for reading, and channel 4 for writing
    Trial {
        room: 4,
        calls: &[
            Call::Put("a", b"a"),
            Call::OpenIn("a", Some(3)),
            Call::Create("b", Some(4)),
            Call::Read(0, None),
            Call::Read(1, None),
            Call::Read(4, None),
            Call::Read(99, None),
            Call::Write(0, b"w", false),
            Call::Write(3, b"w", false),
            Call::Write(99, b"w", false),
            Call::Finish(0, false),
            Call::Finish(99, false),
        ],
    },
];

fn answers_as_said(alloc: Global, trial: &Trial) -> bool {
    let Ok(mut desk) = MemoryDesk::new(alloc, trial.room) else {
        return false;
    };
    for call in trial.calls {
        if !is_so(&mut desk, call) {
            return false;
        }
    }
    true
}

#[test]
fn desks_in_memory_answer_as_said(rt: HostRuntime) {
    let alloc = rt.alloc();
    for (place, trial) in TRIALS.iter().enumerate() {
        assert!(rt; answers_as_said(alloc, trial), "trial {place}");
    }
}
