//! Topological builds: the order in which rules can be worked out, or why there is none, and a build that follows it.
//!
//! Each rule stands behind all rules that it refers to, so a build finds each value that it looks up. Only static rules can
//! be ordered: for any other the references aren't known before it is worked out. A build without an order is refused before
//! any run, first of all for a dynamic rule that written references reach, and else for the first target without a clean value.
//!
//! The order is that in which a depth-first build finishes its rules, with targets and references in their order. A rule is first
//! unmet, then on the path of rules that wait, then done. One hash map has this of the rules that were met, so a build pays for
//! what it reaches and not for the book. The path stands in memory, since it may be as long as the book. A frame keeps the
//! references of its rule and the place of the one that it waits for, so each is looked at once or twice.
//! Only where the walk ends early the first path to a dynamic rule is looked for (`carte_search`), over the written references of
//! static rules. The walk takes n steps for n references, and this search n log n; neither recurs along references.
//!
//! The build works over any rebuilder: for each rule of the order a job is made, takes one turn on a bench, and what it made is
//! finished. It looks into no job. Where what is kept may be relied on, each job has all of its needs when it takes its turn, by
//! the laws of rebuilders alone: so none stops, each is driven once, and a key runs exactly where it isn't held.
//!
//! Turned down: counting for each rule the references that are still open and taking rules without any, which finds an order as
//! fast but tells of a cycle only that some rules are left; a set of the rules that aren't met yet, which is as large as the book
//! before the first step; a search for dynamic rules within the walk, which comes to them in another order than that of their paths;
//! treating each rule within the walk, which would run some before a refusal; ready rules taken from a bench in any order, since one
//! walk gives an order that needs no waiting.
#![tactic(auto)]

mod building;
mod dynamic_paths;
mod plan;
mod references;
mod walk;

pub use building::build;
pub use carte_rebuild::PlanFault;
pub use dynamic_paths::dynamic_path;
pub use plan::order;
