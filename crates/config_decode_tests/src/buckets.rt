//! How long buckets are.
use config_types::{TimeUnit, bucket_nanos};
use std::alloc::AllocError;
use test_tools::{Row, Tester, signed, unsigned};

/// A unit by its name, or none.
fn unit_of(name: &str) -> Option<TimeUnit> {
    match name {
        "ONE_MINUTE" => Some(TimeUnit::OneMinute),
        "FIVE_MINUTES" => Some(TimeUnit::FiveMinutes),
        "TEN_MINUTES" => Some(TimeUnit::TenMinutes),
        "THIRTY_MINUTES" => Some(TimeUnit::ThirtyMinutes),
        "ONE_HOUR" => Some(TimeUnit::OneHour),
        "THREE_HOURS" => Some(TimeUnit::ThreeHours),
        "SIX_HOURS" => Some(TimeUnit::SixHours),
        "TWELVE_HOURS" => Some(TimeUnit::TwelveHours),
        "ONE_DAY" => Some(TimeUnit::OneDay),
        "CTS" => Some(TimeUnit::Cts),
        _ => None,
    }
}

/// A unit, a client, and how long its buckets are.
#[derive(Clone, Copy)]
struct Bucket {
    unit: Option<TimeUnit>,
    uid: i32,
    nanos: u64,
}

/// The bucket of a row: its unit or `absent`, the client and the nanoseconds.
fn bucket_of(text: &str) -> Option<Bucket> {
    let (name, rest) = text.split_once(' ')?;
    let (uid, nanos) = rest.split_once(' ')?;
    let unit = unit_of(name);
    if unit.is_none() && name != "absent" {
        return None;
    }
    Some(Bucket {
        unit,
        uid: i32::try_from(signed(uid)?).ok()?,
        nanos: unsigned(nanos)?,
    })
}

/// Compares how long the bucket of a row is.
pub fn run_bucket(tester: &mut Tester, row: &Row<'_>) -> Result<(), AllocError> {
    let Some(bucket) = bucket_of(row.word("bucket")) else {
        return tester.differs("a bucket that isn't known", row.word("bucket"));
    };
    tester.case();
    tester.same_number(
        "nanoseconds",
        bucket.nanos,
        bucket_nanos(bucket.unit, bucket.uid),
    )
}
