ghost use Rattle.std.specs.Prelude.{◌≡◌};
ghost use Rattle.ddl_effect.specs.Commands.{absent_error as error_of_absent};

use base_types::{Command, Name};
use command_answers::CommandError;

/// The error of a command where no relation has a name that it looked up, by the entry of the scan that said so: `drop
/// index` misses an index (`DropErrorMsgNonExistent` in `src/backend/commands/tablecmds.c`).
pub fn absent_error(command: &Command, name: Name, at: u64) -> CommandError
    ensures { result ≡ error_of_absent command.now name at }
{
    match command {
        Command::DropIndex(_) => CommandError::NoIndex { name, at },
        _ => CommandError::NoRelation { name, at },
    }
}
