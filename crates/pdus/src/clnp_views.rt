//! Octets that are handed on: headers by value, and frames and parts of them by shared views.

mod frame;
mod head;
mod view;

pub use frame::Frame;
pub use head::Head;
pub use view::View;
