//! The command `migrate`: a scenario text of version 1 in version 2.
ghost use Rattle.std.specs.Prelude.{◌≡◌, ◌≤◌, length};
ghost use Rattle.clnp_machine.specs.ClnpBase.Streams.{Rose};
ghost use Rattle.clnp_base.specs.CommandBase.ComesAs.{ComesAs, most_input};
ghost use Rattle.clnp_program.specs.NetworkCommands.RunTasks.{migrate_task};

use crate::network_commands::sim::few_lines;
use clnp_base::command_base::Status;
use clnp_base::command_base::base::{Sink, write_all};
use scenario::scenario_writing::scenarios::ScenarioRefusal;
use std::alloc::Global;

/// Writes the text of a scenario of version 1 in version 2. Nothing is written before the whole text was accepted.
pub fn migrate<K: Sink>(alloc: Global, text: &[u8], sink: &mut K) -> Status
    requires { length text.now ≤ most_input }
    ensures later { K.faults sink.old ≤ K.faults sink.new }
    ensures comes_to { ComesAs (migrate_task text.now) (K.written sink.old) (K.written sink.new) result }
    ensures failed { result ≡ Status.WriteFault → Rose (K.faults sink.old) (K.faults sink.new) }
{
    few_lines();
    match scenario::scenario_writing::migrate(alloc, text) {
        Ok(migrated) => match write_all(sink, migrated.as_slice()) {
            Ok(()) => Status::Done,
            Err(_) => Status::WriteFault,
        },
        Err(ScenarioRefusal::BadLine { line, code }) => Status::BadInput { line, code },
        Err(ScenarioRefusal::NoMemory) => Status::NoMemory,
    }
}
