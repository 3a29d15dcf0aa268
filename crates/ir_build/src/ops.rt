//! One operation more in a list.
ghost use Rattle.std.specs.Prelude.{◌≡◌, [], ◌∷◌, ◌++◌, OnOk};

use bas_ir::Op;
use bv_base::NoMemory;
use sqlite_items::Items;

/// Adds an operation.
pub fn put(ops: &mut Items<Op>, op: Op) -> Result<(), NoMemory>
    ensures { OnOk result (ops.new ≡ ops.old ++ op ∷ []) }
{
    ops.push(op)?;
    Ok(())
}
