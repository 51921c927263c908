//! Records of a file.

/// A record of a file: a captured frame.
#[derive(Clone, Copy)]
pub struct Record<'a> {
    /// The seconds of its time.
    pub seconds: u32,
    /// The fraction of its time, in micro- or nanoseconds, as the file's header says.
    pub fraction: u32,
    /// How many octets the frame had.
    pub original: u32,
    /// The octets of the frame that were captured, at most 262,144.
    pub octets: &'a [u8],
}
