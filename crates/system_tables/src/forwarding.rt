//! The configured routes of an intermediate system: which of them a PDU's destination gets (ISO/IEC 8473, section 6.5).

pub mod laws;
mod route;
mod routes;

pub use crate::forwarding::route::{Route, RouteRefusal};
pub use crate::forwarding::routes::Routes;
