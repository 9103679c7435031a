//! The limits of searches.

/// The greatest limit of a search: no least weight is above it.
pub(crate) const MOST: u64 = (1 << 61) - 1;

/// By how much a limit is raised at first, and by how much a search between two tiles goes on past its goal, where pieces have
/// the weights of edges.
pub const FIRST_SLACK: u64 = 32;

/// By how much the limit of a table of tiles is above the weight of a tree at least, where no search tells and no distances lead.
/// The numbers left out of it are weak bounds, so it must stay above the limits of the searches that it bounds.
pub(crate) const TABLE_SLACK: u64 = 512;

/// The same in vias; the greater of the two counts.
pub const TABLE_VIAS: u64 = 12;

/// The same where distances lead the table, at most: a higher limit lets them reach farther, and that costs more than the weaker
/// bounds of a search that is raised past it.
pub(crate) const DISTANCE_SLACK: u64 = 64;

/// A tree weighs far more than the box of its tiles where it weighs more than twice as much, and by more than this.
pub(crate) const FAR_MARGIN: u64 = 128;

/// The greatest weight of a via at which a search between tiles leads the one of the grid between two terminals: its slack is
/// then worth eight vias or more. Above it ways differ most by their vias, of which the flat grid knows nothing,
/// so balls grow around terminals, and limits are learned.
pub(crate) const LED_VIA: u64 = FIRST_SLACK / 8;

/// The greatest lower bound.
pub(crate) const MOST_LOW: u64 = 1 << 61;
