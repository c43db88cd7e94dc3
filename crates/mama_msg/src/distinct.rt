//! Whether the keys of a list of fields are distinct.
ghost use Rattle.std.specs.Prelude.{◌↔◌, IsTrue, IfOk};
ghost use Rattle.mama_msg.specs.Message.{AreDistinct};

use crate::field::Field;
use crate::scan::has;
use mama_memory::OutOfMemory;
use std::alloc::Global;
use std::collections::HashSet;

// Of so many fields each is compared with those before it, without memory. Of more an index is made.
const FEW: usize = 16;

// Each key is looked for in the fields before it.
fn are_distinct_by_scan(fields: &[Field]) -> bool
    ensures { IsTrue result ↔ AreDistinct fields.now }
{
    for i in 0..fields.len() {
        if has(&fields[..i], &fields[i].key()) {
            return false;
        }
    }
    true
}

// Each key is put into an index.
fn are_distinct_by_index(alloc: Global, fields: &[Field]) -> Result<bool, OutOfMemory>
    ensures { IfOk result (λ distinct. IsTrue distinct ↔ AreDistinct fields.now) }
{
    let mut seen = HashSet::with_capacity(alloc, fields.len())?;
    for field in fields {
        if !seen.insert(field.key())? {
            return Ok(false);
        }
    }
    Ok(true)
}

/// Whether no two fields have one key. It takes time in proportion to the fields.
pub(crate) fn are_distinct(alloc: Global, fields: &[Field]) -> Result<bool, OutOfMemory>
    ensures { IfOk result (λ distinct. IsTrue distinct ↔ AreDistinct fields.now) }
{
    if fields.len() <= FEW {
        Ok(are_distinct_by_scan(fields))
    } else {
        are_distinct_by_index(alloc, fields)
    }
}
