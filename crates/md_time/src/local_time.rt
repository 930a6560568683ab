// Local time.

/// A moment, and how far local time is ahead of UTC: what forms of time as `$time.today` are resolved against.
#[derive(Clone, Copy, Debug, Drop)]
pub struct LocalTime {
    /// In seconds since 1970 in UTC, from `LOW` to `HIGH`.
    pub moment: i64,
    /// In minutes, from -1,439 to 1,439.
    pub offset: i32,
}
