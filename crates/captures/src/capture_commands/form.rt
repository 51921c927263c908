//! In which form the records of a file are told.

/// What the line of a record is.
#[derive(Clone, Copy)]
pub enum Form {
    /// Its number and, of an OSI frame, destination, source and the line that shows the PDU.
    Shown,
    /// Of an OSI frame the line of which the frame is made again, and of every other record a remark.
    Remade,
}
