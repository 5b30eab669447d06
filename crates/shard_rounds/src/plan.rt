/// Unit `unit` of group `group` moves from pipe `giver` to pipe `taker`.
#[derive(Clone, Copy, Debug, PartialEq, Eq)]
pub struct Move {
    pub group: u32,
    pub unit: u32,
    pub giver: u32,
    pub taker: u32,
}

/// The moves with which a round begins, at most one for each group.
#[derive(Debug, Drop)]
pub struct Plan {
    pub moves: Vec<Move>,
}
