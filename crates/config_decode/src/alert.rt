//! Alerts.

use crate::message::Message;
use crate::numbers;
use crate::tree::FromMessage;
use config_types::AlertDef;
use std::alloc::{AllocError, Global};

impl FromMessage for AlertDef {
    ghost use Rattle.config_decode.specs.Alerts.{alert_of};

    ghost tree = { alert_of };

    fn from_message(_alloc: Global, message: &Message<'_>) -> Result<AlertDef, AllocError> {
        Ok(AlertDef {
            id: message.read_scalar(numbers::ALERT_ID),
            metric: message.read_scalar(numbers::ALERT_METRIC),
            threshold: message.read_scalar(numbers::ALERT_THRESHOLD),
            parts: message.read_scalar(numbers::ALERT_PARTS),
            refractory: message.read_scalar(numbers::ALERT_REFRACTORY),
        })
    }
}
