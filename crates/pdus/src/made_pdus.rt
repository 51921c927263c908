//! What is made of PDUs: segments that fit an MTU (ISO/IEC 8473, section 6.7); error reports, made where a PDU is discarded
//! and read where they arrive (ISO/IEC 8473, sections 6.10 and 7.9); and replies to echo requests (RFC 1575).

mod cuts;
pub mod echo_laws;
mod echo_making;
mod echo_matching;
pub mod laws;
pub mod report_laws;
mod report_making;
mod report_reading;

pub use cuts::{Cut, Cuts, NotPermitted};
pub use echo_making::{needs_id, reply};
pub use echo_matching::{matches, matches_parts};
pub use report_making::{MadeReport, report, report_in};
pub use report_reading::{NotReport, Told, read};
