//! System files: K1 to K4 on both sides, and what a file lists.

use sap_system::{SysCode, SysFault, SystemFile, read_system};
use std::alloc::Global;

fn is_read(alloc: Global, text: &str) -> bool {
    read_system(alloc, text.as_bytes()).is_ok()
}

fn is_refused(alloc: Global, bytes: &[u8], code: SysCode, number: usize) -> bool {
    match read_system(alloc, bytes) {
        Err(SysFault::Rule(told, at)) => told == code && at == number,
        _ => false,
    }
}

const DOCUMENTS: [&str; 4] = [
    "parts = [['p', 'a']]\nwires = []",
    "wires = []\r\nparts = [[\"p\", \"a\",],]",
    "# two keys\nparts = [\n  ['p', 'a'],\n]\n'wires' = []\n",
    "parts = [['p', '']]\nwires = [['', ''], ['p.x', 'q.b', '']]",
];

const NO_DOCUMENTS: [&str; 5] = [
    "parts",
    "parts = [['p', 'a']]\nwires = [",
    "parts = [['p', 'a']] wires = []",
    "parts = []\nparts = []\nwires = []",
    "parts = [['p', \"\\z\"]]\nwires = []",
];

const OTHER_SHAPES: [&str; 22] = [
    "",
    "parts = [['p', 'a']]",
    "wires = []",
    "parts = [['p', 'a']]\nwire = []",
    "Parts = [['p', 'a']]\nwires = []",
    "parts = [['p', 'a']]\nwires = []\nlevels = []",
    "parts = 'p'\nwires = []",
    "parts = {p = 'a'}\nwires = []",
    "parts = [['p', 'a']]\nwires = {}",
    "wires = []\n[parts]\np = 'a'",
    "parts = ['p', 'a']\nwires = []",
    "parts = [[]]\nwires = []",
    "parts = [['p']]\nwires = []",
    "parts = [['p', 'a', 'b']]\nwires = []",
    "parts = [['p', 1]]\nwires = []",
    "parts = [['p', ['a']]]\nwires = []",
    "parts = [['p', 'a']]\nwires = ['p.x', 'q.b']",
    "parts = [['p', 'a']]\nwires = [[]]",
    "parts = [['p', 'a']]\nwires = [['p.x']]",
    "parts = [['p', 'a']]\nwires = [['p.x', 'q.b', 'low', 'high']]",
    "parts = [['p', 'a']]\nwires = [['p.x', 'q.b', 0]]",
    "parts = []\nwires = [['p.x', 'q.b'], true]",
];

const EIGHT: &str =
    "parts = [['a', ''], ['b', ''], ['c', ''], ['d', ''], ['e', ''], ['f', ''], ['g', ''], ['h', '']]\nwires = []";

const NINE: &str =
    "parts = [['a', ''], ['b', ''], ['c', ''], ['d', ''], ['e', ''], ['f', ''], ['g', ''], ['h', ''], ['i', '']]\nwires = []";

const NINE_EMPTY: &str =
    "parts = [['', ''], ['', ''], ['', ''], ['', ''], ['', ''], ['', ''], ['', ''], ['', ''], ['', '']]\nwires = []";

const NAMES: [&str; 7] = [
    "parts = [['Pp9', 'a'], ['z', 'a']]\nwires = []",
    "parts = [['then', 'a'], ['case', 'a'], ['sapper', 'a']]\nwires = []",
    "parts = [['Input', 'a'], ['inputs', 'a'], ['inpu', 'a']]\nwires = []",
    "parts = [['p', 'a'], ['P', 'a'], ['pp', 'a']]\nwires = []",
    "parts = [['low', 'a'], ['module', 'a'], ['clk', 'a'], ['i', 'a']]\nwires = []",
    "parts = [['abcdefghijklmnopqrstuvwxyzabcdefghijklmn', 'a']]\nwires = []",
    "parts = [['p', 'a'], ['q', 'a']]\nwires = [['r_s.x', 'p.b']]",
];

const BAD_NAMES: [(&str, usize); 20] = [
    ("parts = [['', 'a']]\nwires = []", 1),
    ("parts = [['9p', 'a']]\nwires = []", 1),
    ("parts = [['p.q', 'a']]\nwires = []", 1),
    ("parts = [['p ', 'a']]\nwires = []", 1),
    ("parts = [[' p', 'a']]\nwires = []", 1),
    ("parts = [['\u{e9}', 'a']]\nwires = []", 1),
    (
        "parts = [['abcdefghijklmnopqrstuvwxyzabcdefghijklmno', 'a']]\nwires = []",
        1,
    ),
    ("parts = [['p', 'a'], ['input', 'a']]\nwires = []", 2),
    ("parts = [['p', 'a'], ['zext', 'a']]\nwires = []", 2),
    ("parts = [['p', 'a'], ['setTag', 'a']]\nwires = []", 2),
    ("parts = [['p', 'a'], ['level', 'a']]\nwires = []", 2),
    ("parts = [['_', 'a']]\nwires = []", 1),
    ("parts = [['_p', 'a']]\nwires = []", 1),
    ("parts = [['p_', 'a']]\nwires = []", 1),
    ("parts = [['q', 'a'], ['p_q', 'a']]\nwires = []", 2),
    ("parts = [['p', 'a'], ['p', 'a']]\nwires = []", 2),
    (
        "parts = [['p', 'a'], ['q', 'b'], ['p', 'c'], ['q', 'd']]\nwires = []",
        3,
    ),
    (
        "parts = [['p', 'a'], ['q', 'b'], ['p', 'c'], ['', 'd']]\nwires = []",
        3,
    ),
    (
        "parts = [['p', 'a'], ['r_', 'b'], ['p', 'c']]\nwires = []",
        2,
    ),
    ("parts = [['p', 'a'], ['p', 'b']]\nwires = [['', '']]", 2),
];

#[test]
fn a_file_is_read_or_the_first_broken_rule_is_told(rt: HostRuntime) {
    let alloc = rt.alloc();
    for text in DOCUMENTS {
        assert!(rt; is_read(alloc, text), "{text}");
    }
    for text in NO_DOCUMENTS {
        assert!(rt;
            is_refused(alloc, text.as_bytes(), SysCode::K1, 0),
            "{text}"
        );
    }
    assert!(rt;
        is_refused(
            alloc,
            b"parts = [['p', '\xff']]\nwires = []",
            SysCode::K1,
            0
        )
    );
    for text in OTHER_SHAPES {
        assert!(rt;
            is_refused(alloc, text.as_bytes(), SysCode::K2, 0),
            "{text}"
        );
    }
    assert!(rt; is_refused(alloc, b"parts = []\nwires = []", SysCode::K3, 0));
    assert!(rt; is_read(alloc, EIGHT));
    assert!(rt; is_refused(alloc, NINE.as_bytes(), SysCode::K3, 9));
    assert!(rt; is_refused(alloc, NINE_EMPTY.as_bytes(), SysCode::K3, 9));
    for text in NAMES {
        assert!(rt; is_read(alloc, text), "{text}");
    }
    for (text, part) in BAD_NAMES {
        assert!(rt;
            is_refused(alloc, text.as_bytes(), SysCode::K4, part),
            "{text}"
        );
    }
}

const TWO: &str =
    "parts = [['p', 'a b.sap'], ['q', '-']]\nwires = [['p.x', 'q.b'], ['q.y', 'p.a', 'low']]";

fn comes_as_written(system: &SystemFile) -> bool {
    let (parts, wires) = (system.parts(), system.wires());
    parts.len() == 2
        && parts[0].name.as_str() == "p"
        && parts[0].file.as_str() == "a b.sap"
        && parts[1].name.as_str() == "q"
        && parts[1].file.as_str() == "-"
        && wires.len() == 2
        && wires[0].from.as_str() == "p.x"
        && wires[0].to.as_str() == "q.b"
        && wires[0].level.is_none()
        && wires[1].from.as_str() == "q.y"
        && wires[1].to.as_str() == "p.a"
        && matches!(&wires[1].level, Some(level) if level.as_str() == "low")
}

#[test]
fn parts_and_wires_come_as_written(rt: HostRuntime) {
    match read_system(rt.alloc(), TWO.as_bytes()) {
        Ok(system) => assert!(rt; comes_as_written(&system)),
        Err(_) => assert!(rt; false),
    }
}

fn is_told_as(alloc: Global, fault: SysFault, text: &str) -> bool {
    let mut out = String::new(alloc);
    match write!(out, "system: {fault}") {
        Ok(()) => out.as_str() == text,
        Err(_) => false,
    }
}

#[test]
fn texts_of_faults(rt: HostRuntime) {
    let alloc = rt.alloc();
    assert!(rt; is_told_as(alloc, SysFault::Rule(SysCode::K1, 0), "system: K1"));
    assert!(rt; is_told_as(alloc, SysFault::Rule(SysCode::K2, 0), "system: K2"));
    assert!(rt; is_told_as(alloc, SysFault::Rule(SysCode::K3, 9), "system: K3 9"));
    assert!(rt; is_told_as(alloc, SysFault::Rule(SysCode::K4, 2), "system: K4 2"));
}
