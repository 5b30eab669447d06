/// A place: arrival `t`, which came from `source`, waits for unit `unit` of the group.
#[derive(Clone, Copy, Debug, PartialEq, Eq)]
pub struct Place {
    pub t: u32,
    pub unit: u32,
    pub source: u32,
}

/// The source of the announced arrival has as many unserved places here as the window allows.
#[derive(Clone, Copy, Debug, PartialEq, Eq)]
pub struct PlaceFull;
