//! Linked configurations and faults as texts.
use config_links::{LinkError, Linked};
use sd_base::Seq;
use std::alloc::{AllocError, Global};
use std::fmt::Debug;

/// The items of a list, as Debug prints them, but that a list is its items alone; or nothing where there are none.
fn items<T: Debug>(alloc: Global, list: &Seq<T>) -> Result<String, AllocError> {
    let mut text = String::new(alloc);
    if list.is_empty() {
        return Ok(text);
    }
    let items = list.as_slice();
    write!(text, "{items:?}")?;
    plain(alloc, text.as_str())
}

/// A text in which a list is its items alone, without the name of its type, and a metric without activations ends
/// before them.
fn plain(alloc: Global, text: &str) -> Result<String, AllocError> {
    let begun = text.replace(alloc, "Seq { items: ", "")?;
    let ended = begun.as_str().replace(alloc, "] }", "]")?;
    ended.as_str().replace(alloc, ", activations: [] }", " }")
}

/// A list of a linked configuration, by its name.
pub fn list_text(alloc: Global, linked: &Linked, list: &str) -> Result<String, AllocError> {
    match list {
        "matchers" => items(alloc, &linked.matchers),
        "predicates" => items(alloc, &linked.predicates),
        "states" => items(alloc, &linked.states),
        "alerts" => items(alloc, &linked.alerts),
        _ => items(alloc, &linked.metrics),
    }
}

/// A fault: what is wrong, the limit, kind or reason, and the id or number at fault.
pub fn fault_text(alloc: Global, fault: &LinkError) -> Result<String, AllocError> {
    match fault {
        LinkError::Fault(fault) => {
            let (number, reason, value) = (fault.number, fault.reason, fault.value);
            format!(in alloc; "{number} {reason} {value}")
        }
        LinkError::Memory => String::from_str(alloc, "no memory"),
    }
}
