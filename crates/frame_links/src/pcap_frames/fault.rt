//! What is wrong with a file.

/// Why octets are no file of Ethernet captures: the first thing that is wrong with them.
#[derive(Clone, Copy, PartialEq, Eq)]
pub enum PcapFault {
    /// The first four octets are no magic number of the form, in neither order of octets.
    Magic,
    /// The version isn't 2.4.
    Version { major: u16, minor: u16 },
    /// The low 16 bits of the link type aren't 1, Ethernet.
    LinkType { value: u32 },
    /// A record says that it has so many octets of a frame, which are more than 262,144.
    RecordLength { octets: u32 },
}

/// A file that ends within its header or within a record, of which so many octets came.
#[derive(Clone, Copy, PartialEq, Eq)]
pub struct CutFile {
    /// The octets of the header or of the record that came.
    pub octets: usize,
}
