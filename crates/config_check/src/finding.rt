//! What is found of a configuration.
use link_rules::LinkFault;
use proto_wire::WireFault;
use sd_base::Path;

/// How many entities of each kind a configuration has.
#[derive(Clone, Copy, Debug, PartialEq, Eq)]
pub struct EntityCounts {
    pub matchers: usize,
    pub predicates: usize,
    pub states: usize,
    pub metrics: usize,
}

/// What is found of a configuration by its bytes.
#[derive(Debug, Drop, PartialEq, Eq)]
pub enum Finding {
    /// It has no fault, and so many entities.
    Sound(EntityCounts),
    /// It has this many bytes, which is above the limit.
    TooLarge(u32),
    /// It isn't well-formed as a message: the cause's number, and where.
    Malformed(WireFault),
    /// It uses what isn't supported: the field numbers from the top to it.
    Unsupported(Path),
    /// Its parts don't fit together: the fault's number, its reason, and the value at fault.
    Unlinked(LinkFault),
}
