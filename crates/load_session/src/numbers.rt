//! The numbers of a seed, and what is drawn from them.
ghost use Rattle.std.specs.Prelude.{◌≡◌, ◌<◌, ◌≤◌, ◌^◌};
ghost use Rattle.load_session.specs.Numbers.{drawn, next_number, pause};

/// The number after a number.
pub(crate) fn next_number(number: u64) -> u64
    ensures { result ≡ next_number number }
{
    number
        .wrapping_mul(6_364_136_223_846_793_005)
        .wrapping_add(1_442_695_040_888_963_407)
}

/// What is drawn from a number, which is its upper 31 bits.
pub(crate) fn drawn(number: u64) -> u64
    ensures draw { result ≡ drawn number }
    ensures short { result < 2 ^ 31 }
{
    number >> 33
}

/// How much time passes at a draw, in nanoseconds: whole milliseconds, less than a second.
pub(crate) fn pause(draw: u64) -> u64
    ensures pause { result ≡ pause draw }
    ensures short { result ≤ 999000000 }
{
    draw % 1000 * 1_000_000
}
