//! The records of a file gone over where they stand.
ghost use Rattle.std.specs.Prelude.{◌≡◌, ◌≤◌, [], None, Some, drop, length, option_map, IfNone, IfSome};
ghost use Rattle.std.specs.List.{cons_option};
ghost use Rattle.hex.specs.Hex.{IsBytes};
ghost use Rattle.frame_links.specs.PcapFrames.Frames.{seen_in};
ghost use Rattle.frame_links.specs.PcapFrames.PlayedFrames.{came_of, is_group};
ghost use Rattle.frame_links.specs.PcapFrames.Walk.{HeaderTells, came_found, frames_from};

use crate::pcap_frames::nsaps::Snpa;
use crate::pcap_frames::{
    END_SYSTEMS, HEADER, INTERMEDIATE_SYSTEMS, Order, RECORD_HEADER, Seen, first_record,
    judge_header, see,
};

/// An OSI PDU in a frame of a file.
#[derive(Clone, Copy)]
pub(crate) struct Frame<'a> {
    /// The frame's source.
    pub(crate) from: Snpa,
    /// Whether the frame's destination is a group.
    pub(crate) group: bool,
    /// The PDU, of at most 1,497 octets.
    pub(crate) pdu: &'a [u8],
}

/// What is found from an index on, and where it ends.
#[derive(Clone, Copy)]
pub(crate) struct Found<'a> {
    /// The first OSI PDU.
    pub(crate) frame: Option<Frame<'a>>,
    /// The index behind its record; where none is found, that behind the last record.
    pub(crate) at: usize,
}

/// The order of the octets of each number of a file, where its header is whole and right.
pub(crate) fn order_of(file: &[u8]) -> Option<Order>
    ensures told { HeaderTells file.now result }
    ensures octets { IsBytes file.now }
{
    if file.len() < HEADER {
        return None;
    }
    judge_header(&file[..HEADER]).ok()
}

/// The first OSI PDU in the records from an index on, where the file has this order, if it has one.
pub(crate) fn next_frame(order: Option<Order>, file: &[u8], start: usize) -> Found<'_>
    requires { start ≤ length file.now }
    ensures within { result.at ≤ length file.now }
    ensures few { IfSome result.frame (λ frame. length frame.pdu.now ≤ 1497) }
    ensures next { frames_from order (drop start file.now)
        ≡ cons_option (option_map came_found result.frame) (frames_from order (drop result.at file.now)) }
    ensures last { IfNone result.frame (frames_from order (drop result.at file.now) ≡ []) }
{
    match order {
        Some(order) => find_frame(order, file, start),
        None => Found {
            frame: None,
            at: start,
        },
    }
}

/// The first OSI PDU in the records from an index on.
fn find_frame(order: Order, file: &[u8], start: usize) -> Found<'_>
    requires { start ≤ length file.now }
    ensures within { result.at ≤ length file.now }
    ensures few { IfSome result.frame (λ frame. length frame.pdu.now ≤ 1497) }
    ensures next { frames_from (Some order) (drop start file.now)
        ≡ cons_option (option_map came_found result.frame) (frames_from (Some order) (drop result.at file.now)) }
    ensures last { IfNone result.frame (frames_from (Some order) (drop result.at file.now) ≡ []) }
{
    let mut at = start;
    while let Some(record) = first_record(order, &file[at..]) {
        at += RECORD_HEADER + record.octets.len();
        if let Some(frame) = frame_in(record.octets) {
            return Found {
                frame: Some(frame),
                at,
            };
        }
    }
    Found { frame: None, at }
}

/// The OSI PDU in a frame, if it has one.
fn frame_in(octets: &[u8]) -> Option<Frame<'_>>
    ensures came { option_map came_found result ≡ came_of (seen_in octets.now) }
    ensures few { IfSome result (λ frame. length frame.pdu.now ≤ 1497) }
{
    match see(octets) {
        Seen::Osi { to, from, pdu } => Some(Frame {
            from,
            group: is_group(&to),
            pdu,
        }),
        Seen::Other | Seen::Cut => None,
    }
}

/// Whether a destination is a group of OSI systems.
fn is_group(to: &Snpa) -> bool
    ensures { result ≡ is_group to.now }
{
    to.as_bytes() == END_SYSTEMS.as_slice() || to.as_bytes() == INTERMEDIATE_SYSTEMS.as_slice()
}
