// The narrowing of one type of a row by a comparison.
ghost use Rattle.std.specs.Prelude.{◌≡◌, ℤ, Option as Maybe};
ghost use Rattle.std.specs.List.{slice_get};
ghost use Rattle.guest.specs.Meaning.{Leaves};
ghost use Rattle.prefix.specs.declared.grammar.Order.{Order as OrderOf};
ghost use Rattle.prefix.specs.Language.{cut_by, cut_place};

use crate::comparison::Comparison;
use crate::grammar::Order;
use guest::NarrowRefusal;

pub trait Trim {
    type Type: Copy;

    ghost trimmed: { OrderOf → ℤ → Self.Type → Maybe Self.Type };

    // The part of a type that satisfies a comparison with a constant, or none where nothing is left.
    fn trim(order: Order, constant: i32, of: Self::Type) -> Option<Self::Type>
        ensures { result ≡ trimmed order constant of };
}

// Narrows the type at the place that a comparison reads.
fn narrow_place<T: Trim>(comparison: Comparison, types: &mut [T::Type]) -> Result<(), NarrowRefusal>
    ensures { Leaves (cut_place T.Trim.trimmed types.old comparison (slice_get types.old comparison.place)) types.old result types.new }
{
    let place = comparison.place;
    let of = *types.get(place).ok_or(NarrowRefusal::NoGuard)?;
    types[place] = T::trim(comparison.order, comparison.constant, of).ok_or(NarrowRefusal::Never)?;
    Ok(())
}

// Narrows a row of types by a comparison; where there is none, nothing changes.
pub fn narrow_by<T: Trim>(
    comparison: Option<Comparison>,
    types: &mut [T::Type],
) -> Result<(), NarrowRefusal>
    ensures { Leaves (cut_by T.Trim.trimmed types.old comparison) types.old result types.new }
{
    match comparison {
        Some(found) => narrow_place::<T>(found, types),
        None => Ok(()),
    }
}
