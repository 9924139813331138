//! The truths of matchers, by their places.
ghost use Rattle.std.specs.Prelude.{◌≡◌};
ghost use Rattle.metric_meaning.specs.Histories.{truth_at};
ghost use Rattle.metric_meaning.specs.PredicateSteps.{named_truth};

/// The truth at a place.
pub fn is_true_at(matched: &[bool], place: u32) -> bool
    ensures { result ≡ truth_at place matched.now }
{
    is_true_from(matched, place as usize)
}

/// The same of a place that counts from 0.
pub fn is_true_from(matched: &[bool], place: usize) -> bool
    ensures { result ≡ truth_at place matched.now }
{
    match matched.get(place) {
        Some(truth) => *truth,
        None => false,
    }
}

/// The truth at a place, if one is named.
pub fn is_true_if_named(matched: &[bool], place: Option<u32>) -> bool
    ensures { result ≡ named_truth place matched.now }
{
    match place {
        Some(place) => is_true_at(matched, place),
        None => false,
    }
}
