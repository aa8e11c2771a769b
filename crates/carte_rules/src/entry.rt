/// What stands at a key of a plain line.
#[derive(Clone, Copy, Drop)]
pub(crate) enum Held<'a> {
    Text(&'a str),
    Number(i64),
}

/// A key of a table, with what stands at it.
#[derive(Clone, Copy, Drop)]
pub(crate) struct Entry<'a> {
    pub(crate) key: &'a str,
    pub(crate) held: Held<'a>,
}

/// The entries of the two tables, each by its keys.
#[derive(Drop)]
pub(crate) struct PlainTables<'a> {
    pub(crate) inputs: Vec<Entry<'a>>,
    pub(crate) rules: Vec<Entry<'a>>,
}
