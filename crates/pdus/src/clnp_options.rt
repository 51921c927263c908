//! The options part of a CLNP header: checked by rules with a reason and a place, read option by
//! option, edited in place as a router does, and built (ISO/IEC 8473, sections 7.5 and 7.9.5).

mod codes;
mod edit;
mod form;
mod judge;
mod kinds;
pub mod laws;
mod list;
mod read;
mod reasons;

pub use edit::{
    advance_route, is_route_complete, level, mark_congestion, record_title, route_target,
};
pub use judge::{OptionRefusal, check, place_of_unfit};
pub use kinds::{OptionRef, Options, walk};
pub use list::{OptionList, OptionTooLong};
pub use read::first_option;
pub use reasons::Reason;
