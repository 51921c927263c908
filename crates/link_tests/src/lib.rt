//! Tests of octets and text, their sources and sinks, and clocks; of links and boards, with a link of their own that notes
//! what is done with it; of link words, and of links over UDP: datagrams on 127.0.0.1, between links of one process; and of
//! Ethernet captures: files of both kinds in both orders, each fault and each cut, frames at every bound, files made, and
//! files played by a link. Expected texts are written from the form's description.
#![tactic(auto)]

#[cfg(test)]
mod board_calls;
#[cfg(test)]
mod clnp_base_calls;
#[cfg(test)]
mod clock_calls;
#[cfg(test)]
mod link_calls;
#[cfg(test)]
mod noting;
#[cfg(test)]
mod pcap_files;
#[cfg(test)]
mod pcap_in_place;
#[cfg(test)]
mod pcap_made;
#[cfg(test)]
mod pcap_played;
#[cfg(test)]
mod pcap_seen;
#[cfg(test)]
mod pcap_told;
#[cfg(test)]
mod recorded_link_calls;
#[cfg(test)]
mod udp_calls;
#[cfg(test)]
mod udp_opening;
#[cfg(test)]
mod word_calls;
