//! Links that carry frames: a board of them, links over UDP, and Ethernet captures in the pcap form, which a link can play.
#![tactic(auto)]

pub mod link_board;
pub mod pcap_frames;
pub mod udp_links;
