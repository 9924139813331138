//! What the checks of ids and references ask of a matcher, a predicate, a state, a metric or an alert alike.
ghost use Rattle.std.specs.Prelude.{◌≡◌, []};
ghost use Rattle.link_rules.specs.EntityNames.{first_unknown, matchers_of_matcher, matchers_of_predicate, matchers_of_metric, predicates_of_predicate, predicates_of_metric};

use crate::entities::{Kind, Metric};
use crate::known::Known;
use crate::names::{find_unknown, find_unknown_child, find_unknown_link, find_unknown_signal};
use config_types::{AlertDef, MatcherBody, MatcherDef, PredicateBody, PredicateDef, StateDef};

/// An entity: it has an id, and may name matchers and predicates by theirs.
pub trait Entity {
    ghost use Rattle.std.specs.Prelude.{ℤ, List, Option};

    ghost id: { Self → Option ℤ };

    /// By which ids it names matchers, in the order in which these are judged.
    ghost matchers: { Self → List (Option ℤ) };

    /// By which ids it names predicates, in the order in which these are judged.
    ghost predicates: { Self → List (Option ℤ) };

    fn given_id(&self) -> Option<i64>
        ensures { result ≡ id self.now };

    /// The first name of a matcher that isn't among these.
    fn unknown_matcher(&self, known: &Known) -> Option<i64>
        ensures { result ≡ first_unknown known.now (matchers self.now) };

    /// The first name of a predicate that isn't among these.
    fn unknown_predicate(&self, known: &Known) -> Option<i64>
        ensures { result ≡ first_unknown known.now (predicates self.now) };
}

impl Entity for MatcherDef {
    ghost use Rattle.link_rules.specs.EntityIds.{id_of_matcher};

    ghost id = { id_of_matcher };

    ghost matchers = { matchers_of_matcher };

    ghost predicates = { λ _. [] };

    fn given_id(&self) -> Option<i64> {
        self.id
    }

    fn unknown_matcher(&self, known: &Known) -> Option<i64> {
        match &self.body {
            Some(MatcherBody::Combo(combo)) => find_unknown_child(known, combo.children.as_slice()),
            _ => None,
        }
    }

    fn unknown_predicate(&self, _known: &Known) -> Option<i64> {
        None
    }
}

impl Entity for PredicateDef {
    ghost use Rattle.link_rules.specs.EntityIds.{id_of_predicate};

    ghost id = { id_of_predicate };

    ghost matchers = { matchers_of_predicate };

    ghost predicates = { predicates_of_predicate };

    fn given_id(&self) -> Option<i64> {
        self.id
    }

    fn unknown_matcher(&self, known: &Known) -> Option<i64> {
        match &self.body {
            Some(PredicateBody::Simple(simple)) => {
                find_unknown(known, &[simple.start, simple.stop, simple.stop_all])
            }
            _ => None,
        }
    }

    fn unknown_predicate(&self, known: &Known) -> Option<i64> {
        match &self.body {
            Some(PredicateBody::Combo(combo)) => find_unknown_child(
                known,
                combo.children.as_slice(),
            ),
            _ => None,
        }
    }
}

impl Entity for StateDef {
    ghost use Rattle.link_rules.specs.EntityIds.{id_of_state};

    ghost id = { id_of_state };

    ghost matchers = { λ _. [] };

    ghost predicates = { λ _. [] };

    fn given_id(&self) -> Option<i64> {
        self.id
    }

    fn unknown_matcher(&self, _known: &Known) -> Option<i64> {
        None
    }

    fn unknown_predicate(&self, _known: &Known) -> Option<i64> {
        None
    }
}

impl Entity for Metric {
    ghost use Rattle.link_rules.specs.EntityIds.{id_of_metric};

    ghost id = { id_of_metric };

    ghost matchers = { matchers_of_metric };

    ghost predicates = { predicates_of_metric };

    fn given_id(&self) -> Option<i64> {
        self.common.id
    }

    fn unknown_matcher(&self, known: &Known) -> Option<i64> {
        let own = match &self.kind {
            Kind::Gauge(gauge) => find_unknown(known, &[self.common.what, gauge.trigger]),
            Kind::Duration { .. } => None,
            _ => find_unknown(known, &[self.common.what]),
        };
        if own.is_some() {
            return own;
        }
        find_unknown_signal(known, self.common.activations.as_slice())
    }

    fn unknown_predicate(&self, known: &Known) -> Option<i64> {
        if let Kind::Duration { .. } = &self.kind
            && let Some(id) = find_unknown(known, &[self.common.what])
        {
            return Some(id);
        }
        if let Some(id) = find_unknown(known, &[self.common.condition]) {
            return Some(id);
        }
        find_unknown_link(known, self.common.links.as_slice())
    }
}

impl Entity for AlertDef {
    ghost use Rattle.link_rules.specs.EntityIds.{id_of_alert};

    ghost id = { id_of_alert };

    ghost matchers = { λ _. [] };

    ghost predicates = { λ _. [] };

    fn given_id(&self) -> Option<i64> {
        self.id
    }

    fn unknown_matcher(&self, _known: &Known) -> Option<i64> {
        None
    }

    fn unknown_predicate(&self, _known: &Known) -> Option<i64> {
        None
    }
}
