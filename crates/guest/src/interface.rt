// The questions that the bench asks of a guest. Its meaning answers each, and the guest's code is proved to answer so.
ghost use Rattle.std.specs.Prelude.{◌≡◌};
ghost use Rattle.guest.specs.Meaning.{Meaning, Leaves};
ghost use Rattle.guest.specs.Laws.{Laws};

use crate::answers::{NarrowRefusal, Reason};
use tables::Node;

pub trait Guest {
    type Type: Copy;

    type Value: Copy;

    ghost meaning: { Meaning Self.Type Self.Value };

    ghost laws: { Laws meaning };

    // The type that a value's codes a and b name, or none.
    fn make(a: i32, b: i32) -> Option<Self::Type>
        ensures { result ≡ meaning.make a b };

    // The value that a code stands for under a type, or none where the code is unreadable.
    fn decode(of: Self::Type, code: i32) -> Option<Self::Value>
        ensures { result ≡ meaning.decode of code };

    fn encode(value: Self::Value) -> i32
        ensures { result ≡ meaning.encode value };

    // The value that a type's values have before anything is assigned.
    fn rest(of: Self::Type) -> Self::Value
        ensures { result ≡ meaning.rest of };

    fn holds(of: Self::Type, value: Self::Value) -> bool
        ensures { result ≡ meaning.holds of value };

    // Whether every value of the first type is meant to be one of the second.
    fn within(inner: Self::Type, outer: Self::Type) -> bool
        ensures { result ≡ meaning.within inner outer };

    // A right side's type under a row of types, or none.
    fn typed(nodes: &[Node], types: &[Self::Type]) -> Option<Self::Type>
        ensures { result ≡ meaning.typed nodes.now types.now };

    // A right side's value on a row of values.
    fn value(nodes: &[Node], row: &[Self::Value]) -> Result<Self::Value, Reason>
        ensures { result ≡ meaning.value nodes.now row.now };

    // A guard's yes or no on a row of values.
    fn verdict(nodes: &[Node], row: &[Self::Value]) -> Result<bool, Reason>
        ensures { result ≡ meaning.verdict nodes.now row.now };

    // Narrows a row of types, element by element, to what is left after the guard's yes. On Ok the row has what is left,
    // which may be all; after a refusal it is as it was.
    fn narrow(nodes: &[Node], types: &mut [Self::Type]) -> Result<(), NarrowRefusal>
        ensures { Leaves (meaning.narrow nodes.now types.old) types.old result types.new };
}
