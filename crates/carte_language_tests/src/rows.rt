//! Tables whose rows say what something comes to.

use carte_value::NoMemory;
use std::alloc::Global;
use std::test::Fail;

/// What the rows of a table ask for.
pub(crate) trait Told {
    /// What this comes to, as the rows print it.
    fn told(&self, alloc: Global, asked: &str) -> Result<String, NoMemory>;
}

fn row_holds(row: &str, want: &str, told: &str) -> Result<(), Fail> {
    if told == want {
        return Ok(());
    }
    Err(Fail::new(format_args!("{told} at {row}")))
}

/// How many rows there are, where each has what it comes to behind an arrow.
pub(crate) fn rows_hold<T: Told>(alloc: Global, table: &T, rows: &str) -> Result<u32, Fail> {
    let mut count = 0u32;
    for row in rows.lines() {
        let (asked, want) = row.split_once(" -> ").ok_or("no arrow")?;
        let told = table.told(alloc, asked)?;
        row_holds(row, want, told.as_str())?;
        count = count.wrapping_add(1);
    }
    Ok(count)
}
