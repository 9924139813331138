//! The decoder of a whole configuration.
ghost use Rattle.std.specs.Prelude.{◌≡◌, ◌<◌, ◌^◌, length, IfOk};
ghost use Rattle.sd_base.specs.Reads.{GivesBy};
ghost use Rattle.config_decode.specs.ConfigFault.{config_fault_of};
ghost use Rattle.config_decode.specs.Config.{config_of, tree_of};

use crate::message::Message;
use crate::tree::{FromMessage, repeated};
use crate::walk::first_unsupported;
use crate::{DecodeFault, numbers};
use config_types::Config;
use std::alloc::{AllocError, Global};

/// The most bytes of a configuration.
pub const MAX_BYTES: usize = 262_144;

/// The tree of a configuration, or its one fault: too many bytes, or the first fault of the wire format, or, where
/// there is none, the first record that isn't supported.
#[tactic(auto, unfolding(crate::specs::Config::config_of))]
pub fn decode(alloc: Global, bytes: &[u8]) -> Result<Config, DecodeFault>
    requires { length bytes.now < 2 ^ 32 }
    ensures { GivesBy config_fault_of (λ config. config) result (config_of bytes.now) }
{
    if bytes.len() > MAX_BYTES {
        return Err(DecodeFault::TooLarge(bytes.len() as u32));
    }
    if let Some(path) = first_unsupported(alloc, bytes)? {
        return Err(DecodeFault::Unsupported(path));
    }
    let message = Message::read(alloc, bytes)?;
    let config = Config::from_message(alloc, &message)?;
    Ok(config)
}

impl FromMessage for Config {
    ghost use Rattle.config_decode.specs.Config.{tree_of};

    ghost tree = { tree_of };

    fn from_message(alloc: Global, message: &Message<'_>) -> Result<Config, AllocError> {
        let matchers = repeated(alloc, message, numbers::CONFIG_ATOM_MATCHER)?;
        let predicates = repeated(alloc, message, numbers::CONFIG_PREDICATE)?;
        let states = repeated(alloc, message, numbers::CONFIG_STATE)?;
        let events = repeated(alloc, message, numbers::CONFIG_EVENT_METRIC)?;
        let counts = repeated(alloc, message, numbers::CONFIG_COUNT_METRIC)?;
        let values = repeated(alloc, message, numbers::CONFIG_VALUE_METRIC)?;
        let gauges = repeated(alloc, message, numbers::CONFIG_GAUGE_METRIC)?;
        let durations = repeated(alloc, message, numbers::CONFIG_DURATION_METRIC)?;
        let no_report = message.read_scalars(alloc, numbers::CONFIG_NO_REPORT_METRIC)?;
        let alerts = repeated(alloc, message, numbers::CONFIG_ALERT)?;
        Ok(Config {
            matchers,
            predicates,
            states,
            events,
            counts,
            values,
            gauges,
            durations,
            no_report,
            alerts,
        })
    }
}
