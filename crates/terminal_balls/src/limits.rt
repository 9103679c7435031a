//! The limits of growths.

/// So many terminals have balls at most.
pub(crate) const MOST_TERMINALS: usize = 5;

/// So many masks there are of them.
pub(crate) const MASKS: usize = 32;

/// No ball is wider. No number that a vertex is offered within it is as great as what stands for none.
pub(crate) const WIDEST: u64 = 1 << 56;

/// So many vertices are taken out for each terminal, after which the balls end. With twice as many, searches of trees take out a
/// fiftieth less.
pub(crate) const VERTICES_EACH: usize = 50;
