//! What holds of every history of a configuration, so that a contract may say it: the books of its metrics balance.
ghost use Rattle.std.specs.Prelude.{ℕ, ◌<◌, ◌^◌, Bool, List, length};
ghost use Rattle.config_links.specs.declared.linked.LMetric.{LMetric};
ghost use Rattle.config_types.specs.declared.parameters.PredSpec.{PredSpec};
ghost use Rattle.metric_meaning.specs.Balance.{CountsBalance, EventsBalance, SumsBalance};
ghost use Rattle.metric_meaning.specs.Histories.{Step, Installation};

/// After any steps, and at any time after them, what arrived at a metric since its installation is what reports showed,
/// what stood in rows that weren't kept, what was turned away, and what waits for the next report. Of counts and events
/// it is told in numbers, with those turned away as reports tell them; of sums of durations in nanoseconds, over
/// parts of which each change of the active keys is in one. It does nothing when it runs.
pub fn books_balance()
    ensures counts { (installed : Installation) (metric : LMetric) (overflow : Bool) (steps : List Step)
        (now : ℕ) → length steps < 2 ^ 64 → CountsBalance installed metric overflow steps now }
    ensures events { (installed : Installation) (metric : LMetric) (steps : List Step) (now : ℕ)
        → length steps < 2 ^ 64 → EventsBalance installed metric steps now }
    ensures sums { (installed : Installation) (metric : LMetric) (spec : PredSpec)
        (steps : List Step) (now : ℕ) → SumsBalance installed metric spec steps now }
{}
