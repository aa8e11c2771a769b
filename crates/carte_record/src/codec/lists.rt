//! The lists of a batch are spelled as their items are, one after the other behind their number.
ghost use Rattle.std.specs.Prelude.{◌≡◌, ◌++◌, OnOk};
ghost use Rattle.carte_value.specs.Spelling.{spelling, IsValue};
ghost use Rattle.carte_codec.specs.Parts.{spelled_link, FitsLink, spelled_list, FitsList};
ghost use Rattle.carte_record.specs.Bodies.{spelled_deep, FitsDeep, spelled_trace, FitsTrace};

use crate::{DeepTrace, Seen, Store, Trace};
use carte_codec::write_list;
use carte_table::Plain;
use carte_value::NoMemory;

/// Puts how many values there are, and each in order, behind `out`.
pub(crate) fn write_values(values: &Store, out: &mut Vec<u8>) -> Result<(), NoMemory>
    ensures bytes { OnOk result (out.new.items ≡ out.old.items ++ spelled_list spelling values.now) }
    ensures fits { OnOk result (FitsList IsValue values.now) }
{
    let _len = values.len();
    write_list(values.as_slice(), out)
}

/// Puts how many links there are, and each in order, behind `out`.
pub(crate) fn write_links(links: &Seen, out: &mut Vec<u8>) -> Result<(), NoMemory>
    ensures bytes { OnOk result (out.new.items ≡ out.old.items ++ spelled_list spelled_link links.now) }
    ensures fits { OnOk result (FitsList FitsLink links.now) }
{
    let _len = links.len();
    write_list(links.as_slice(), out)
}

/// Puts how many traces there are, and each in order, behind `out`.
pub(crate) fn write_traces(traces: &Plain<Trace>, out: &mut Vec<u8>) -> Result<(), NoMemory>
    ensures bytes { OnOk result (out.new.items ≡ out.old.items ++ spelled_list spelled_trace traces.now) }
    ensures fits { OnOk result (FitsList FitsTrace traces.now) }
{
    let _len = traces.len();
    write_list(traces.as_slice(), out)
}

/// Puts how many deep traces there are, and each in order, behind `out`.
pub(crate) fn write_deep(traces: &Plain<DeepTrace>, out: &mut Vec<u8>) -> Result<(), NoMemory>
    ensures bytes { OnOk result (out.new.items ≡ out.old.items ++ spelled_list spelled_deep traces.now) }
    ensures fits { OnOk result (FitsList FitsDeep traces.now) }
{
    let _len = traces.len();
    write_list(traces.as_slice(), out)
}
