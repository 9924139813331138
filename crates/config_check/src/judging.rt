//! The bytes of a configuration, judged: decoded, and their references looked up.
ghost use Rattle.std.specs.Prelude.{◌≡◌, ◌<◌, ◌^◌, length, IfOk};
ghost use Rattle.config_links.specs.Verdict.{verdict};
ghost use Rattle.config_check.specs.Findings.{entity_counts, finding_by, finding_of};

use crate::{EntityCounts, Finding};
use config_decode::{DecodeFault, decode};
use config_links::{Linked, link};
use config_types::Config;
use link_rules::LinkError;
use std::alloc::{AllocError, Global};

/// The client for whom a configuration is checked.
const CLIENT: i32 = 0;

/// What is found of the bytes of a configuration.
#[tactic(auto, unfolding(crate::specs::Findings::finding_of))]
pub fn judge(alloc: Global, bytes: &[u8]) -> Result<Finding, AllocError>
    requires { length bytes.now < 2 ^ 32 }
    ensures { IfOk result (λ finding. finding ≡ finding_of bytes.now) }
{
    match decode(alloc, bytes) {
        Ok(config) => judge_links(alloc, config),
        Err(DecodeFault::TooLarge(size)) => Ok(Finding::TooLarge(size)),
        Err(DecodeFault::Wire(fault)) => Ok(Finding::Malformed(fault)),
        Err(DecodeFault::Unsupported(path)) => Ok(Finding::Unsupported(path)),
        Err(DecodeFault::Memory) => Err(AllocError),
    }
}

/// What is found of a configuration that was decoded.
fn judge_links(alloc: Global, config: Config) -> Result<Finding, AllocError>
    ensures { IfOk result (λ finding. finding ≡ finding_by config (verdict config)) }
{
    match link(alloc, config, CLIENT) {
        Ok(linked) => Ok(Finding::Sound(count_entities(&linked))),
        Err(LinkError::Fault(fault)) => Ok(Finding::Unlinked(fault)),
        Err(LinkError::Memory) => Err(AllocError),
    }
}

/// How many entities of each kind there are.
fn count_entities(linked: &Linked) -> EntityCounts
    ensures { result ≡ entity_counts linked.now }
{
    EntityCounts {
        matchers: linked.matchers.len(),
        predicates: linked.predicates.len(),
        states: linked.states.len(),
        metrics: linked.metrics.len(),
    }
}
