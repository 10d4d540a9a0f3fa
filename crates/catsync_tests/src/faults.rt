use crate::inputs::{Calls, STEADY, source_of};
use crate::scripts::COMMANDS;
use base_types::NoMemory;
use edge_io::read_all;
use fault_hints::{KeptSource, hint};
use script_text::ScriptCause;
use std::alloc::Global;
use std::test::Fail;

// Faulty lines between others, and what is said of them; nothing of a line whose cause says all.
const HINTS: &[(&[u8], u32, ScriptCause, &str)] = &[
    (
        b"backends 1\n1: Show 1t;\nend\n",
        2,
        ScriptCause::BadCommand,
        "BadCommand: after \"Show\" comes a name; found \"1t\" (a name doesn't begin with a digit)",
    ),
    (
        b"-- one\r\nbackends 1\r\n1: begin transaction\r\nend\r\n",
        3,
        ScriptCause::BadCommand,
        "BadCommand: after \"begin\" comes the end of the line; found \"transaction\" (PostgreSQL's, but not in this grammar: leave it out)",
    ),
    (
        b"backends 1\n1: show t\xe2\x88\x92\nend\n",
        2,
        ScriptCause::BadByte,
        "BadByte: the byte 0xE2 in column 10 (of the character U+2212) is neither printable ASCII nor a tab",
    ),
    (
        b"backends 1\nsteps 1\n1: begin\nend\n",
        3,
        ScriptCause::LateCommand,
        "",
    ),
];

// Whether this is said; nothing where the text is empty.
fn is_hint(
    alloc: Global,
    script: &[u8],
    line: u32,
    cause: ScriptCause,
    text: &str,
) -> Result<bool, NoMemory> {
    match hint(alloc, script, line, cause)? {
        Some(said) => Ok(said.as_str() == text),
        None => Ok(text.is_empty()),
    }
}

#[test]
fn faulty_lines_have_hints_and_commands_of_each_form_have_none(
    rt: HostRuntime,
) -> Result<(), Fail> {
    for &(script, line, cause, text) in HINTS {
        assert!(rt; is_hint(rt.alloc(), script, line, cause, text)?, "{text}");
    }
    // the hints know each form of a command
    for &(command, _) in COMMANDS {
        assert!(rt; has_no_hint(rt.alloc(), command)?, "{command}");
    }
    Ok(())
}

// Whether no word of a command is said to be wrong.
fn has_no_hint(alloc: Global, command: &str) -> Result<bool, NoMemory> {
    let script = format!(in alloc; "backends 1\n1: {command}\nend\n")?;
    is_hint(alloc, script.as_bytes(), 2, ScriptCause::BadCommand, "")
}

// How many bytes are kept of a source whose calls go so.
fn kept(alloc: Global, text: &[u8], calls: Calls) -> Result<usize, NoMemory> {
    let mut source = KeptSource::new(alloc, source_of(alloc, text, calls)?);
    let _ = read_all(alloc, &mut source, 100);
    let kept = source.text();
    Ok(if text.starts_with(kept) {
        kept.len()
    } else {
        usize::MAX
    })
}

// The third call fails, after two of two bytes.
const FAILING: Calls = Calls {
    per_call: 2,
    failing: 3,
};

#[test]
fn a_source_keeps_what_it_gave(rt: HostRuntime) -> Result<(), Fail> {
    assert!(rt; kept(rt.alloc(), b"backends", STEADY)? == 8);
    assert!(rt; kept(rt.alloc(), b"backends", FAILING)? == 4);
    Ok(())
}
