//! The leaves that the trees of a metric mean.
ghost use Rattle.std.specs.Prelude.{map};
ghost use Rattle.std.specs.List.{list_all};
ghost use Rattle.config_links.specs.LinkReasons.{HasSets, may_stand, set_or_none};
ghost use Rattle.config_links.specs.MetricTrees.{link_stands, state_link_stands, own_tree, metric_stands, sets_of_link, sets_of_state_link, metric_sets};

use crate::reasons::set_in;
use config_types::{LinkDef, StateLinkDef};
use field_select::FieldSet;
use link_rules::{Kind, LinkError, Metric};
use sd_base::Seq;
use std::alloc::Global;

/// The condition and the two sides of a link.
#[derive(Debug, Drop)]
pub struct LinkSets {
    pub condition: Option<i64>,
    pub in_what: FieldSet,
    pub in_condition: FieldSet,
}

/// The atom and the two sides of a state link.
#[derive(Debug, Drop)]
pub struct StateLinkSets {
    pub atom_id: Option<i32>,
    pub in_what: FieldSet,
    pub in_state: FieldSet,
}

/// The sets of all trees of a metric.
#[derive(Debug, Drop)]
pub struct MetricSets {
    pub dims: FieldSet,
    /// What the metric's kind has of its own: the field of a value, or the filter of a gauge.
    pub own: FieldSet,
    pub links: Seq<LinkSets>,
    pub state_links: Seq<StateLinkSets>,
}

// The sets of a link, in a metric of this id.
fn link_in(alloc: Global, id: Option<i64>, link: &LinkDef) -> Result<LinkSets, LinkError>
    ensures { HasSets result id (link_stands link.now) (sets_of_link link.now) }
{
    let in_what = set_in(alloc, id, &link.in_what)?;
    let in_condition = set_in(alloc, id, &link.in_condition)?;
    Ok(LinkSets {
        condition: link.condition,
        in_what,
        in_condition,
    })
}

// The sets of all links.
fn links_in(alloc: Global, id: Option<i64>, links: &[LinkDef]) -> Result<Seq<LinkSets>, LinkError>
    ensures { HasSets result id (list_all link_stands links.now)
        (map sets_of_link links.now) }
{
    let mut sets = Seq::new(alloc);
    for link in links {
        sets.push(link_in(alloc, id, link)?)?;
    }
    Ok(sets)
}

// The sets of a state link, in a metric of this id.
fn state_link_in(
    alloc: Global,
    id: Option<i64>,
    link: &StateLinkDef,
) -> Result<StateLinkSets, LinkError>
    ensures { HasSets result id (state_link_stands link.now)
        (sets_of_state_link link.now) }
{
    let in_what = set_in(alloc, id, &link.in_what)?;
    let in_state = set_in(alloc, id, &link.in_state)?;
    Ok(StateLinkSets {
        atom_id: link.atom_id,
        in_what,
        in_state,
    })
}

// The sets of all state links.
fn state_links_in(
    alloc: Global,
    id: Option<i64>,
    links: &[StateLinkDef],
) -> Result<Seq<StateLinkSets>, LinkError>
    ensures { HasSets result id (list_all state_link_stands links.now)
        (map sets_of_state_link links.now) }
{
    let mut sets = Seq::new(alloc);
    for link in links {
        sets.push(state_link_in(alloc, id, link)?)?;
    }
    Ok(sets)
}

// The set of the tree that a kind of metric has of its own.
fn own_set(alloc: Global, id: Option<i64>, kind: &Kind) -> Result<FieldSet, LinkError>
    ensures { HasSets result id (may_stand (own_tree kind.now))
        (set_or_none (own_tree kind.now)) }
{
    match kind {
        Kind::Value(value) => set_in(alloc, id, &value.field),
        Kind::Gauge(gauge) => set_in(alloc, id, &gauge.fields),
        _ => set_in(alloc, id, &None),
    }
}

/// The sets of a metric.
pub fn sets_in(alloc: Global, metric: &Metric) -> Result<MetricSets, LinkError>
    ensures { HasSets result metric.now.common.id (metric_stands metric.now)
        (metric_sets metric.now) }
{
    let id = metric.common.id;
    let dims = set_in(alloc, id, &metric.sliced.dims)?;
    let own = own_set(alloc, id, &metric.kind)?;
    let links = links_in(alloc, id, metric.common.links.as_slice())?;
    let state_links = state_links_in(alloc, id, metric.sliced.state_links.as_slice())?;
    Ok(MetricSets {
        dims,
        own,
        links,
        state_links,
    })
}
