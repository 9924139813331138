//! What an install brings: the bytes of a configuration, decoded, and its references, looked up.
ghost use Rattle.std.specs.Prelude.{◌≡◌, IfOk};
ghost use Rattle.config_decode.specs.Config.{config_of};
ghost use Rattle.config_links.specs.SoundConfig.{IsSoundConfig};
ghost use Rattle.hub_meaning.specs.Acceptance.{config_read, linked_read};
ghost use Rattle.hub_core.specs.CarriedConfigs.{linked_from};

use atom_record::Bytes;
use client_engine::LiveId;
use config_decode::{DecodeFault, decode};
use config_links::{LinkError, Linked, link};
use config_types::Config;
use session_frames::Refusal;
use std::alloc::{AllocError, Global};

/// An install as it comes: whose it is, its bytes, and what was read of them.
#[derive(Drop)]
pub struct Offer {
    pub name: LiveId,
    pub config: Bytes,
    pub read: Result<Config, Refusal>,
}

/// A configuration without faults, as it goes in: whose it is, its bytes, and its linked form.
#[derive(Drop)]
pub struct Accepted {
    pub name: LiveId,
    pub config: Bytes,
    pub linked: Linked,
}

/// What the bytes of a configuration say, or why they are refused.
#[tactic(auto, unfolding(config_decode::specs::Config::config_of))]
pub fn read_config(alloc: Global, bytes: &[u8]) -> Result<Result<Config, Refusal>, AllocError>
    ensures { IfOk result (λ read. read ≡ config_read (config_of bytes.now)) }
{
    if bytes.len() > u32::MAX as usize {
        return Ok(Err(Refusal::TooLarge(u32::MAX)));
    }
    match decode(alloc, bytes) {
        Ok(config) => Ok(Ok(config)),
        Err(DecodeFault::TooLarge(size)) => Ok(Err(Refusal::TooLarge(size))),
        Err(DecodeFault::Wire(fault)) => Ok(Err(Refusal::Wire {
            cause: fault.cause,
            offset: fault.offset,
        })),
        Err(DecodeFault::Unsupported(path)) => Ok(Err(Refusal::Unsupported(path))),
        Err(DecodeFault::Memory) => Err(AllocError),
    }
}

/// A client's configuration with its references looked up, or the fault for which it is refused.
pub fn link_config(
    alloc: Global,
    config: Config,
    uid: i32,
) -> Result<Result<Linked, Refusal>, AllocError>
    ensures linked { IfOk result (λ linked. linked ≡ linked_read uid config) }
    ensures sound { IfOk result (λ linked. IfOk linked IsSoundConfig) }
{
    match link(alloc, config, uid) {
        Ok(linked) => Ok(Ok(linked)),
        Err(LinkError::Fault(fault)) => Ok(Err(Refusal::Link {
            number: fault.number,
            reason: fault.reason,
            value: fault.value,
        })),
        Err(LinkError::Memory) => Err(AllocError),
    }
}

/// What the bytes of a client's configuration say, with its references looked up, or why they are refused.
pub fn read_linked(
    alloc: Global,
    uid: i32,
    bytes: &[u8],
) -> Result<Result<Linked, Refusal>, AllocError>
    ensures linked { IfOk result (λ linked. linked ≡ linked_from uid bytes.now) }
    ensures sound { IfOk result (λ linked. IfOk linked IsSoundConfig) }
{
    match read_config(alloc, bytes)? {
        Ok(config) => link_config(alloc, config, uid),
        Err(refusal) => Ok(Err(refusal)),
    }
}
