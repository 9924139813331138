//! What the numbers of records stand for: integers, truth values, and the enums of the profile.
ghost use Rattle.std.specs.Prelude.{◌≡◌, ℕ, Option};

use crate::profile::truncate_to_u32;
use config_types::{Aggregation, Direction, Operation, Position, SamplingType, TimeUnit};

/// A value that a number stands for.
pub trait Scalar: Copy + Drop {
    /// What a number stands for, if it stands for anything.
    ghost meaning: { ℕ → Option Self };

    fn from_varint(number: u64) -> Option<Self>
        ensures { result ≡ meaning number };
}

impl Scalar for i64 {
    ghost use Rattle.config_decode.specs.Values.{int64_of};

    ghost meaning = { int64_of };

    fn from_varint(number: u64) -> Option<i64> {
        Some(number.cast_signed())
    }
}

impl Scalar for i32 {
    ghost use Rattle.config_decode.specs.Values.{int32_of};

    ghost meaning = { int32_of };

    fn from_varint(number: u64) -> Option<i32> {
        Some(truncate_to_u32(number).cast_signed())
    }
}

impl Scalar for bool {
    ghost use Rattle.config_decode.specs.Values.{bool_of};

    ghost meaning = { bool_of };

    fn from_varint(number: u64) -> Option<bool> {
        Some(number != 0)
    }
}

/// What a simple predicate is at a key that was never started.
#[derive(Clone, Copy)]
pub enum InitialValue {
    Unknown,
    False,
}

/// How the runs of a duration come to one.
#[derive(Clone, Copy)]
pub enum Runs {
    Sum,
    MaxSparse,
}

impl Scalar for Position {
    ghost use Rattle.config_decode.specs.Profile.{position_of, low_half};

    ghost meaning = { λ number. position_of (low_half number) };

    fn from_varint(number: u64) -> Option<Position> {
        match truncate_to_u32(number) {
            1 => Some(Position::First),
            2 => Some(Position::Last),
            3 => Some(Position::Any),
            4 => Some(Position::All),
            _ => None,
        }
    }
}

impl Scalar for Operation {
    ghost use Rattle.config_decode.specs.Profile.{operation_of, low_half};

    ghost meaning = { λ number. operation_of (low_half number) };

    fn from_varint(number: u64) -> Option<Operation> {
        match truncate_to_u32(number) {
            1 => Some(Operation::And),
            2 => Some(Operation::Or),
            3 => Some(Operation::Not),
            4 => Some(Operation::Nand),
            5 => Some(Operation::Nor),
            _ => None,
        }
    }
}

impl Scalar for TimeUnit {
    ghost use Rattle.config_decode.specs.Profile.{unit_of, low_half};

    ghost meaning = { λ number. unit_of (low_half number) };

    fn from_varint(number: u64) -> Option<TimeUnit> {
        match truncate_to_u32(number) {
            1 => Some(TimeUnit::OneMinute),
            2 => Some(TimeUnit::FiveMinutes),
            3 => Some(TimeUnit::TenMinutes),
            4 => Some(TimeUnit::ThirtyMinutes),
            5 => Some(TimeUnit::OneHour),
            6 => Some(TimeUnit::ThreeHours),
            7 => Some(TimeUnit::SixHours),
            8 => Some(TimeUnit::TwelveHours),
            9 => Some(TimeUnit::OneDay),
            1000 => Some(TimeUnit::Cts),
            _ => None,
        }
    }
}

impl Scalar for Aggregation {
    ghost use Rattle.config_decode.specs.Profile.{aggregation_of, low_half};

    ghost meaning = { λ number. aggregation_of (low_half number) };

    fn from_varint(number: u64) -> Option<Aggregation> {
        match truncate_to_u32(number) {
            1 => Some(Aggregation::Sum),
            2 => Some(Aggregation::Min),
            3 => Some(Aggregation::Max),
            _ => None,
        }
    }
}

impl Scalar for Direction {
    ghost use Rattle.config_decode.specs.Profile.{direction_of, low_half};

    ghost meaning = { λ number. direction_of (low_half number) };

    fn from_varint(number: u64) -> Option<Direction> {
        match truncate_to_u32(number) {
            1 => Some(Direction::Increasing),
            2 => Some(Direction::Decreasing),
            3 => Some(Direction::Any),
            _ => None,
        }
    }
}

impl Scalar for SamplingType {
    ghost use Rattle.config_decode.specs.Profile.{sampling_of, low_half};

    ghost meaning = { λ number. sampling_of (low_half number) };

    fn from_varint(number: u64) -> Option<SamplingType> {
        match truncate_to_u32(number) {
            1 => Some(SamplingType::RandomOne),
            3 => Some(SamplingType::ChangeToTrue),
            4 => Some(SamplingType::FirstN),
            _ => None,
        }
    }
}

impl Scalar for InitialValue {
    ghost use Rattle.config_decode.specs.Profile.{initial_value_of, low_half};

    ghost meaning = { λ number. initial_value_of (low_half number) };

    fn from_varint(number: u64) -> Option<InitialValue> {
        match truncate_to_u32(number) {
            0 => Some(InitialValue::Unknown),
            1 => Some(InitialValue::False),
            _ => None,
        }
    }
}

impl Scalar for Runs {
    ghost use Rattle.config_decode.specs.Profile.{runs_of, low_half};

    ghost meaning = { λ number. runs_of (low_half number) };

    fn from_varint(number: u64) -> Option<Runs> {
        match truncate_to_u32(number) {
            1 => Some(Runs::Sum),
            2 => Some(Runs::MaxSparse),
            _ => None,
        }
    }
}
