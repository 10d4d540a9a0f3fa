ghost use Rattle.std.specs.Prelude.{◌≡◌, map, MatchOption};
ghost use Rattle.std.specs.String.{string_bytes};
ghost use Rattle.catsync_top.specs.Top.{Ask, AskToMake, AskNoWord, AskNoScript, IsNoKind, IsNumber, IsNoNumber, argument_of};

use base_types::LineBuffer;
use check_tool::CheckKind;
use make_script::MOST_NUMBER;

/// What the program is asked to do with what it reads.
#[derive(Clone, Copy)]
pub enum Word {
    /// `walk`, `run`: a script, to write an output of it.
    Output(CheckKind),
    /// `check walk`, `check run`: a script and after it an output, to check that.
    Check(CheckKind),
}

/// The word that the arguments ask for, if they ask for one.
pub fn word_of(arguments: &[String]) -> Option<Word>
    ensures { MatchOption result (AskNoWord (map string_bytes arguments.now)) (Ask (map string_bytes arguments.now)) }
{
    match arguments {
        [word] => Some(Word::Output(kind_of(word.as_str())?)),
        [first, second] if first.as_str() == "check" => {
            Some(Word::Check(kind_of(second.as_str())?))
        }
        _ => None,
    }
}

// What a text names, if it is `walk` or `run`.
fn kind_of(text: &str) -> Option<CheckKind>
    ensures { MatchOption result (IsNoKind text.now) (λ kind. text.now ≡ argument_of kind) }
{
    match text {
        "walk" => Some(CheckKind::Walk),
        "run" => Some(CheckKind::Run),
        _ => None,
    }
}

// The number of the script that the arguments ask for, if they ask for one.
pub(crate) fn made_of(arguments: &[String]) -> Option<u32>
    ensures { MatchOption result (AskNoScript (map string_bytes arguments.now)) (AskToMake (map string_bytes arguments.now)) }
{
    match arguments {
        [first, second] if first.as_str() == "make" => number_of(second.as_str()),
        _ => None,
    }
}

// The number that a text is, from 1 to 1,000, without a sign and without zeros in front.
fn number_of(text: &str) -> Option<u32>
    ensures { MatchOption result (IsNoNumber text.now) (IsNumber text.now) }
{
    let Ok(number) = text.parse::<u32>() else {
        return None;
    };
    if number < 1 || number > MOST_NUMBER {
        return None;
    }
    let mut digits = LineBuffer::new();
    digits.push_number(number);
    if digits.as_bytes() == text.as_bytes() {
        Some(number)
    } else {
        None
    }
}
