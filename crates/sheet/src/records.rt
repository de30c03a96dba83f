// The loaded records of a lent table.
ghost use Rattle.std.specs.List.{All, AllZip};
ghost use Rattle.std.specs.Prelude.{Ok as Typed, IfOk, IsOk, Result as Answer};
ghost use Rattle.tables.specs.declared.OutOfLimits.{OutOfLimits as Refused};

use std::alloc::{AllocError, Global};
use tables::OutOfLimits;

// A table's records, where each lent one stands for one.
pub(crate) fn typed_records<R: Copy, T: TryFrom<R, Error = OutOfLimits> + Copy>(
    heap: Global,
    rows: &[R],
) -> Result<Vec<T>, AllocError>
    requires { All (λ x. (r : Answer T Refused) → T.try_from_gives x r → IsOk r) rows.now }
    ensures { IfOk result (λ v. AllZip (λ x y. T.try_from_gives x (Typed y)) rows.now v.items) }
{
    let mut records = Vec::new(heap);
    for row in rows {
        records.push(T::try_from(*row).unwrap())?;
    }
    Ok(records)
}
