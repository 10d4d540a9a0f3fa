use base_types::NoMemory;
use std::alloc::Global;

/// Which of the arguments of a refused call is wrong, and what comes there.
pub fn argument_hint(alloc: Global, arguments: &[String]) -> Result<String, NoMemory> {
    let mut text = String::new(alloc);
    match arguments {
        [] => push_comes(&mut text, "", "walk, run, check or make", None)?,
        [first, rest @ ..] => match first.as_str() {
            "walk" | "run" => push_input(&mut text, first, rest)?,
            "check" => push_kind(&mut text, rest)?,
            "make" => push_number(&mut text, rest)?,
            _ => push_comes(&mut text, "", "walk, run, check or make", Some(first))?,
        },
    }
    Ok(text)
}

// After a word that takes none.
fn push_input(text: &mut String, word: &str, rest: &[String]) -> Result<(), NoMemory> {
    push_comes(
        text,
        word,
        "nothing, since the script is standard input",
        rest.first(),
    )
}

// After `check`.
fn push_kind(text: &mut String, rest: &[String]) -> Result<(), NoMemory> {
    match rest {
        [kind, third, ..] if is_kind(kind) => {
            text.push_str("after check ")?;
            push_comes_after(
                text,
                kind,
                "nothing, since script and output are standard input",
                Some(third),
            )
        }
        _ => push_comes(text, "check", "walk or run", rest.first()),
    }
}

fn is_kind(word: &str) -> bool {
    word == "walk" || word == "run"
}

// After `make`.
fn push_number(text: &mut String, rest: &[String]) -> Result<(), NoMemory> {
    match rest {
        [number, third, ..] if is_number(number.as_bytes()) => {
            text.push_str("after make ")?;
            push_comes_after(text, number, "nothing", Some(third))
        }
        _ => push_comes(
            text,
            "make",
            "a number from 1 to 1000, without sign and zeros before it",
            rest.first(),
        ),
    }
}

// Whether it is a number that `make` takes.
fn is_number(word: &[u8]) -> bool {
    match word {
        [b'1'..=b'9'] => true,
        [b'1'..=b'9', rest @ ..] if rest.len() < 3 => rest.iter().all(u8::is_ascii_digit),
        _ => word == b"1000".as_slice(),
    }
}

fn push_comes(
    text: &mut String,
    word: &str,
    wanted: &str,
    found: Option<&String>,
) -> Result<(), NoMemory> {
    text.push_str(if word.is_empty() { "first" } else { "after " })?;
    push_comes_after(text, word, wanted, found)
}

fn push_comes_after(
    text: &mut String,
    word: &str,
    wanted: &str,
    found: Option<&String>,
) -> Result<(), NoMemory> {
    text.push_str(word)?;
    text.push_str(" comes ")?;
    text.push_str(wanted)?;
    if let Some(found) = found {
        text.push_str("; found '")?;
        text.push_str(found)?;
        text.push_str("'")?;
    }
    Ok(())
}
