// How the search compares costs, with none where there is no cost.
ghost use Rattle.std.specs.Prelude.{◌≡◌, Some, Decides};
ghost use Rattle.costs.specs.Compare.{either, shown, topped, under_of};
ghost use Rattle.costs.specs.Costs.{Joinable};

use crate::model::CostModel;
use port::Move;

// The greater of a cost and the top so far, where there is one.
fn higher<C: CostModel>(a: C::Cost, top: Option<C::Cost>) -> C::Cost
    ensures { C.exact result ≡ topped C.model (C.exact a) (shown C.exact top) }
{
    top.map_or(a, |b| if C::less(a, b) { b } else { a })
}

// The less of the two costs that are there.
pub fn lower<C: CostModel>(x: Option<C::Cost>, y: Option<C::Cost>) -> Option<C::Cost>
    ensures { shown C.exact result ≡ either C.model (shown C.exact x) (shown C.exact y) }
{
    match (x, y) {
        (Some(a), Some(b)) => Some(if C::less(b, a) { b } else { a }),
        _ => x.or(y),
    }
}

// Whether there is a cost `x`, and `y` is none or is above it.
pub fn under<C: CostModel>(x: Option<C::Cost>, y: Option<C::Cost>) -> bool
    ensures { result ≡ under_of C.model (shown C.exact x) (shown C.exact y) }
{
    x.is_some_and(|a| y.is_none_or(|b| C::less(a, b)))
}

// Whether two costs are one.
// Stays: a rule of the project: a model is asked no more than before, and a `PartialEq` of `Cost` would ask more of each.
fn same<C: CostModel>(a: C::Cost, b: C::Cost) -> bool
    ensures { Decides result (C.exact a ≡ C.exact b) }
{
    !C::less(a, b) && !C::less(b, a)
}

// Whether there is a cost, and it is `b`.
pub fn comes_to<C: CostModel>(x: Option<C::Cost>, b: C::Cost) -> bool
    ensures { Decides result (shown C.exact x ≡ Some (C.exact b)) }
{
    x.is_some_and(|a| same::<C>(a, b))
}

// The greater of a move joined onto a cost and the top so far.
pub fn extend<C: CostModel>(m: &Move, c: C::Cost, top: Option<C::Cost>) -> C::Cost
    ensures { Joinable C.model (C.exact c) → C.exact result ≡ topped C.model (C.model.join m.now (C.exact c)) (shown C.exact top) }
{
    higher::<C>(C::join(m, c), top)
}
