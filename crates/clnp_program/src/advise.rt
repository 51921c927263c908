//! What the author of a refused input is told.
ghost use Rattle.std.specs.Prelude.{Ok};
ghost use Rattle.clnp_program.specs.Advised.{Advised};
ghost use Rattle.clnp_program.specs.declared.command.Command.TheVariants.{Whole};

use crate::command::WholeCommand;
use crate::live_commands::advising::{
    Advice, of_capture, of_scenario, of_scenario_of_version_1, of_vectors,
};
use crate::network_commands::Status;

/// What the author of an input is told that a command refuses at one of its lines: which word is at fault and what is wanted
/// there, or what the line is about. Nothing with every other answer, and by the commands that tell nothing.
pub(crate) fn advice_on(command: WholeCommand, text: &[u8], status: Status) -> Advice
    ensures { Advised (Ok (Whole command)) status result }
{
    let Status::BadInput { line, code } = status else {
        return Advice::new();
    };
    match command {
        WholeCommand::Sim | WholeCommand::Trace => of_scenario(text, line, code),
        WholeCommand::Migrate => of_scenario_of_version_1(text, line, code),
        WholeCommand::Show => of_capture(text, line, code),
        WholeCommand::Check => of_vectors(text, line, code),
        WholeCommand::Pack
        | WholeCommand::PcapMake
        | WholeCommand::Reassemble
        | WholeCommand::Storm { .. } => Advice::new(),
    }
}
