/// What a packet does next at a pipe.
#[derive(Clone, Copy, Debug, PartialEq, Eq)]
pub enum Heading {
    /// It is served here: this pipe owns the unit of its place.
    Serve,
    /// It skips its group, at which it has no place.
    Skip,
    /// It goes to the pipe that owns the unit of its place.
    Pass(u32),
    /// It has passed all groups, and goes to its home.
    GoHome(u32),
    /// It has passed all groups, and this is its home.
    TakeHome,
}
