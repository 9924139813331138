//! Fields, whose bytes are borrowed from the message.

/// What a field holds, by how it is laid out.
#[derive(Clone, Copy, PartialEq, Eq)]
pub enum Body<'a> {
    Varint(u64),
    Fixed64(u64),
    Bytes(&'a [u8]),
    /// The records between the group's start and its end.
    Group(&'a [u8]),
    Fixed32(u32),
}

/// One record of a message. Places are counted from the start of the whole configuration.
#[derive(Clone, Copy, PartialEq, Eq)]
pub struct Field<'a> {
    /// The field's number, from 1 to 2^29 - 1.
    pub number: u32,
    /// Where the tag begins.
    pub at: u32,
    /// Where the payload begins; for bytes, after their count.
    pub payload_at: u32,
    pub body: Body<'a>,
}
