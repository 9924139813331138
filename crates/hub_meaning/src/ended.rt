//! What holds of a configuration that a command ended, so that a contract may say it: all of it was told.
ghost use Rattle.std.specs.Prelude.{ℕ, ◌+◌, ◌<◌, ◌^◌, Bool, List, length};
ghost use Rattle.config_links.specs.declared.linked.LMetric.{LMetric};
ghost use Rattle.metric_meaning.specs.Histories.{Step, Installation};
ghost use Rattle.hub_meaning.specs.EndedBooks.{EndedCountsBalance, EndedEventsBalance};

/// After any steps a command ends a configuration, and its last report is told. Then what arrived at a metric of
/// counts, or of events, since the installation is what reports showed, what stood in rows that weren't kept, and
/// what they told as dropped: nothing waits. It does nothing when it runs.
pub fn ended_books_balance()
    ensures counts { (installed : Installation) (metric : LMetric) (overflow : Bool) (steps : List Step)
        (clock : ℕ) → 0 < metric.size → length steps + 1 < 2 ^ 64
        → EndedCountsBalance installed metric overflow steps clock }
    ensures events { (installed : Installation) (metric : LMetric) (steps : List Step) (clock : ℕ)
        → length steps + 1 < 2 ^ 64 → EndedEventsBalance installed metric steps clock }
{}
