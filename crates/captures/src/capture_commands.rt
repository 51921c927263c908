//! The commands on captured frames. Those that go over the lines of captured frames: what writes a line of text for each
//! frame, what judges vectors, and what packs lines of text back to frames. Those on Ethernet captures in pcap files: the
//! records of a file told as lines while it is read, and a file made of lines.

mod answer;
pub mod check;
mod fault;
mod form;
mod frame_line;
pub mod laws;
mod made_file;
pub mod pack;
pub mod pcap_laws;
mod record_lines;
pub mod show;
mod stations;
mod teller;
mod telling;

pub use form::Form;
pub use made_file::pcap_make;
pub use telling::{pcap_lines, pcap_show};
