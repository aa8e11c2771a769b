//! The first path through a graph of names: the shortest to a goal, and of equally short ones the first in byte order.
//!
//! The graph is a trait: it tells of a name what stands behind it, or that it is a goal, and each name is asked once. The
//! search goes breadth first in the order of the paths themselves: the starts in byte order, then, name by name in the order
//! of meeting, those behind it that weren't met yet, in byte order too. So the paths by which names are met rise strictly, and
//! the first goal that is met has the first of all paths. It takes n log n steps for n edges, and no recursion.
//!
//! Turned down: a search depth first, since a name would be come to by every path, of which there may be exponentially many;
//! and a sorted set of whole paths, which holds n paths of n names.
#![tactic(auto)]

mod first;
mod search;

pub use first::{Graph, first_path};
