//! Trees and faults as texts.
use config_decode::DecodeFault;
use config_types::Config;
use sd_base::{Path, Seq};
use std::alloc::{AllocError, Global};
use std::fmt::Debug;

/// What Debug prints, and what stands for it, in this order. A list is its items alone, some messages have no name, and
/// the ends of some are left out where nothing is there. Each rule can be undone, so that no two trees have one text.
const SHORT: &[(&str, &str)] = &[
    ("Seq { items: ", ""),
    ("] }", "]"),
    (", activations: [] }", " }"),
    (
        "common: Common { id: None, what: None, condition: None, links: [] }, sliced: Sliced { dims: None, \
        bucket: None, bound: None, slices: [], state_links: [] }",
        "..",
    ),
    (", condition: None, links: [] }", " }"),
    (", bound: None, slices: [], state_links: [] }", " }"),
    (", overflow: false }", " }"),
    ("position: None, ", ""),
    (", children: [] }", " }"),
    ("FieldMatcher {", "{"),
    ("FieldTest {", "{"),
    ("SimpleMatcher {", "{"),
    ("MatcherDef {", "{"),
];

/// Shortens a text.
fn shorten(alloc: Global, text: &mut String) -> Result<(), AllocError> {
    for &(from, to) in SHORT {
        *text = text.as_str().replace(alloc, from, to)?;
    }
    Ok(())
}

/// The items of a list, or nothing where there are none.
fn items<T: Debug>(alloc: Global, list: &Seq<T>) -> Result<String, AllocError> {
    let mut text = String::new(alloc);
    if list.is_empty() {
        return Ok(text);
    }
    let items = list.as_slice();
    write!(text, "{items:?}")?;
    shorten(alloc, &mut text)?;
    Ok(text)
}

/// A list of a tree, by its name.
pub fn list_text(alloc: Global, tree: &Config, list: &str) -> Result<String, AllocError> {
    match list {
        "matchers" => items(alloc, &tree.matchers),
        "predicates" => items(alloc, &tree.predicates),
        "states" => items(alloc, &tree.states),
        "events" => items(alloc, &tree.events),
        "counts" => items(alloc, &tree.counts),
        "values" => items(alloc, &tree.values),
        "gauges" => items(alloc, &tree.gauges),
        "durations" => items(alloc, &tree.durations),
        "alerts" => items(alloc, &tree.alerts),
        _ => items(alloc, &tree.no_report),
    }
}

/// A fault: `malformed OFFSET CAUSE`, `unsupported PATH` or `too_large SIZE`.
pub fn fault_text(alloc: Global, fault: &DecodeFault) -> Result<String, AllocError> {
    match fault {
        DecodeFault::TooLarge(size) => format!(in alloc; "too_large {size}"),
        DecodeFault::Wire(fault) => wire_text(alloc, "malformed ", fault.offset, fault.cause),
        DecodeFault::Unsupported(path) => path_text(alloc, path),
        DecodeFault::Memory => String::from_str(alloc, "no memory"),
    }
}

/// A fault of the wire after some text: the place of the record and the number of the cause.
pub fn wire_text(
    alloc: Global,
    before: &str,
    offset: u32,
    cause: u8,
) -> Result<String, AllocError> {
    format!(in alloc; "{before}{offset} {cause}")
}

/// The numbers of a path.
fn path_text(alloc: Global, path: &Path) -> Result<String, AllocError> {
    let mut text = String::from_str(alloc, "unsupported")?;
    for number in path.as_slice() {
        write!(text, " {number}")?;
    }
    Ok(text)
}
