//! The numbers by which small choices are saved.
ghost use Rattle.std.specs.Prelude.{◌≡◌};
ghost use Rattle.value_metric.specs.ChoiceNumbers.{aggregation_number, aggregation_by, direction_number, direction_by, asked_number, asked_of_number};

use config_types::{Aggregation, Direction};

/// The number of an aggregation.
pub(crate) fn number_of_aggregation(aggregation: Aggregation) -> u64
    ensures { result ≡ aggregation_number aggregation }
{
    match aggregation {
        Aggregation::Sum => 0,
        Aggregation::Min => 1,
        Aggregation::Max => 2,
    }
}

/// The aggregation of a number, if it is one.
pub(crate) fn aggregation_of(number: u64) -> Option<Aggregation>
    ensures { result ≡ aggregation_by number }
{
    match number {
        0 => Some(Aggregation::Sum),
        1 => Some(Aggregation::Min),
        2 => Some(Aggregation::Max),
        _ => None,
    }
}

/// The number of the way in which values go.
pub(crate) fn number_of_direction(direction: Direction) -> u64
    ensures { result ≡ direction_number direction }
{
    match direction {
        Direction::Increasing => 0,
        Direction::Decreasing => 1,
        Direction::Any => 2,
    }
}

/// The way of a number, if it is one.
pub(crate) fn direction_of(number: u64) -> Option<Direction>
    ensures { result ≡ direction_by number }
{
    match number {
        0 => Some(Direction::Increasing),
        1 => Some(Direction::Decreasing),
        2 => Some(Direction::Any),
        _ => None,
    }
}

/// The number of what is asked for or not.
pub(crate) fn number_of_flag(flag: bool) -> u64
    ensures { result ≡ asked_number flag }
{
    if flag { 1 } else { 0 }
}

/// What is asked for or not, by its number.
pub(crate) fn flag_of(number: u64) -> Option<bool>
    ensures { result ≡ asked_of_number number }
{
    match number {
        0 => Some(false),
        1 => Some(true),
        _ => None,
    }
}
