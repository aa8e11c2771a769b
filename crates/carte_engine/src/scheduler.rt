/// The order in which a build works out its rules.
#[derive(Clone, Copy, Debug, PartialEq, Eq)]
pub enum Scheduler {
    /// Each rule behind those that its formula refers to. Formulas that choose what they refer to are refused.
    Topological,
    /// What the targets need, in the order in which it was finished last. A rule that needs another one without a value is
    /// given up, and begun anew once that one has a value.
    Restarting,
    /// The targets one after another; a rule that needs another one waits until that is done.
    Suspending,
}
