//! What a watch tells, as text.
use alert_watch::{Alarm, Alarms};
use atom_record::{DimKey, Leaf, MetricKey, Value};
use sd_base::Seq;
use std::alloc::{AllocError, Global};

/// The key with one number.
pub fn key_of(alloc: Global, number: i32) -> Result<MetricKey, AllocError> {
    let mut dims = DimKey::new(alloc);
    dims.push(Leaf::One(Value::Int(number)))?;
    Ok(MetricKey {
        dims,
        slices: Seq::new(alloc),
    })
}

/// The alarms and how many others there were, as `3:7=2 others 0`: times, keys and sums.
pub fn alarms_text(alloc: Global, alarms: &Alarms) -> Result<String, AllocError> {
    let mut text = String::new(alloc);
    for alarm in alarms.listed.as_slice() {
        push_alarm(&mut text, alarm)?;
    }
    let others = alarms.not_kept;
    write!(text, "others {others}")?;
    Ok(text)
}

fn push_alarm(text: &mut String, alarm: &Alarm) -> Result<(), AllocError> {
    let (at, sum) = (alarm.at, alarm.sum);
    match (alarm.key.dims.len(), alarm.key.dims.get(0)) {
        (1, Some(Leaf::One(Value::Int(number)))) => write!(text, "{at}:{number}={sum} "),
        _ => write!(text, "{at}:another key={sum} "),
    }
}
