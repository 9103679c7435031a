//! The directions that a map shows.

/// Which tile edges a map shows: those along x, those along y, or at each tile the fuller one of both.
#[derive(Clone, Copy, Debug, Drop, PartialEq, Eq)]
pub enum Direction {
    X,
    Y,
    Greater,
}
