use std::time::Duration;

/// Bytes a microsecond, which are megabytes a second.
pub fn rate(size: usize, time: Duration) -> u128 {
    size as u128 / time.as_micros().max(1)
}
