//! Tables that are put together key by key.
ghost use Rattle.std.specs.Prelude.{◌≡◌, OnOk};
ghost use Rattle.toml.specs.View.{table_view, view};
ghost use Rattle.qc_make.specs.MadeTable.{with_member};

use qc_num::OutOfMemory;
use std::alloc::Global;
use toml::{Table, Value};

/// Puts a value at a key of a table, in the place of the one that stands there, if one does.
pub fn put(alloc: Global, table: &mut Table, key: &str, value: Value) -> Result<(), OutOfMemory>
    ensures { OnOk result (table_view table.new
        ≡ with_member key.now (view value) (table_view table.old)) }
{
    let key = String::from_str(alloc, key)?;
    table.insert(key, value)?;
    Ok(())
}
