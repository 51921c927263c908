//! Scenario texts, and what is read of them.
#![tactic(auto)]

mod change_line;
mod code;
mod counts;
mod declarations;
mod event_line;
mod fault;
pub mod laws;
mod reader;
pub mod scenario_writing;
mod setting;
mod standing;
mod system;
mod wish;
pub mod word;

pub use clnp_plan::scenario_plan::{Body, Event, KeptAsk, Move, Scenario, Subnet};
pub use code::Code;
pub use fault::{LineFault, ScenarioRefusal};
pub use reader::{read, read_for_run, read_version_1};

/// What words say of a system and of a unit, and what events do together.
pub mod kinds {
    pub use crate::counts::Counts;
    pub use crate::setting::Setting;
    pub use crate::wish::Wish;
}

/// What a scenario says.
pub mod plans {
    pub use clnp_plan::scenario_plan::laws;
}

/// What a scenario says of a system, and the words and lines of which texts are made.
pub mod system_plan {
    pub use clnp_plan::{
        Ask, Limits, Note, PortConfig, Role, Settings, SystemConfig, Why, Word, journal_text,
        kind_word, late_text, octets_word, on_or_off, push_end, push_line, push_words, target_text,
        transmission_text, void_text,
    };
}

/// CLNP PDUs.
pub mod clnp {
    pub use clnp_plan::clnp::{Kind, Pdu, SegPart, decode_frame};
}

/// NSAP addresses, their prefixes, SNPAs, and targets.
pub mod nsaps {
    pub use clnp_plan::nsaps::{Address, Prefix, Snpa, Target, laws};
}

/// The options part of a header.
pub mod options {
    pub use clnp_plan::options::OptionList;
}

/// Octets handed on.
pub mod views {
    pub use clnp_plan::views::Frame;
}

/// What is heard of neighbours.
pub mod hearing {
    pub use clnp_plan::hearing::{EsisLimits, Gone, Heard, Neighbour, TableKind, Tables};
}

/// Configured routes.
pub mod routing {
    pub use clnp_plan::routing::{Route, RouteRefusal, Routes};
}

/// Octets and text.
pub mod base {
    pub use clnp_plan::base::{
        DigitValues, InlineOctets, NoMemory, decimal, is_skipped, lines, next_line, next_word,
        push, same, words,
    };
}
