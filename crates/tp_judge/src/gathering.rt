//! The lines of a trace, gathered by a number that they have.
ghost use Rattle.std.specs.Prelude.{◌≡◌, [], All, IfOk, length};
ghost use Rattle.tp_judge.specs.LinesByNumber.{AreGathered};
ghost use Rattle.tp_judge.specs.Lines.{HasKeyBelow};

use crate::line::{By, IndexedLine};
use std::alloc::Global;
use tp_common::memory::Memory;

pub(crate) fn empty_rows<T: Drop>(alloc: Global, count: usize) -> Result<Vec<Vec<T>>, Memory>
    ensures size { IfOk result (λ rows. length rows.items ≡ count) }
    ensures empty { IfOk result (λ rows. All (λ row. row.items ≡ []) rows.items) }
{
    let mut rows = Vec::with_capacity(alloc, count)?;
    for _ in 0..count {
        rows.push(Vec::new(alloc))?;
    }
    Ok(rows)
}

/// For each number below `count` the lines with that number, in order. The work is linear in the
/// count and the number of lines.
pub(crate) fn gather_rows<'t>(
    alloc: Global,
    lines: &'t [IndexedLine],
    by: By,
    count: usize,
) -> Result<Vec<Vec<&'t IndexedLine>>, Memory>
    requires { All (HasKeyBelow by count) lines.now }
    ensures { IfOk result (λ rows. AreGathered by count lines.now rows.items) }
{
    let mut rows = empty_rows(alloc, count)?;
    for line in lines {
        if let Some(key) = line.key(by) {
            rows[key as usize].push(line)?;
        }
    }
    Ok(rows)
}
