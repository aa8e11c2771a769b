/// How long the lists were.
#[derive(Clone, Copy)]
pub(crate) struct Lengths {
    pub(crate) seen: usize,
    pub(crate) entries: usize,
    pub(crate) verifying: usize,
    pub(crate) constructive: usize,
    pub(crate) deep: usize,
    pub(crate) values: usize,
}
