//! The greatest number of cores, and the greatest counts in a sample, for which the estimator advises.
/// The greatest number of cores for which an estimator advises.
pub const MAX_CORES: usize = 64;

/// The greatest value of a count in a sample, in threads, scans or units of time.
pub const MAX_COUNT: u64 = 1 << 48;
