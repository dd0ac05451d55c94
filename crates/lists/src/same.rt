ghost use Rattle.std.specs.Fn.{FnReturnsAtPair};
ghost use Rattle.lists.specs.Alike.{AreFellows, Tells};

/// Whether two lists are the same item by item, where `same` tells of two items.
pub fn are_same<T, F: Fn(&T, &T) -> bool>(items: &[T], others: &[T], same: F) -> bool
    requires { (x y : _) → AreFellows items.now others.now x.now y.now → F.pre same x y }
    ensures { Tells (FnReturnsAtPair F.Fn same) result items.now others.now }
{
    if items.len() != others.len() {
        return false;
    }
    for i in 0..items.len() {
        if !same(&items[i], &others[i]) {
            return false;
        }
    }
    true
}
