ghost use Rattle.std.specs.Prelude.{◌≡◌, ◌<◌, ◌≤◌, ◌↔◌, ℕ, List, All, Contains, length, slice_index};
ghost use Rattle.network.specs.declared.joining.labels.Pair.{Pair};
ghost use Rattle.network.specs.Steps.Joined.{Joined, IsWithin, AreChained, AreFalling, IsOneAlong, KeepsClasses, StayChained, TellJoined};
ghost use Rattle.network.specs.Steps.Tables.{AreBelow};

/// State passes between two elements, by their numbers.
#[derive(Clone, Copy)]
pub struct Pair {
    pub one: usize,
    pub other: usize,
}

/// Follows labels to one that labels itself, and shortens the way for the next time.
fn root_of(labels: &mut [usize], start: usize) -> usize
    requires within { start < length labels.old }
    requires falling { AreFalling labels.old }
    ensures within { result < length labels.new }
    ensures root { slice_index labels.new result ≡ result }
    ensures classes { KeepsClasses labels.old labels.new }
    ensures found { (f : ℕ → ℕ) → IsOneAlong f labels.new → f result ≡ f start }
    ensures chained { (pairs : List Pair) → AreChained pairs labels.old → Joined pairs result start }
{
    let mut at = start;
    while labels[at] != at {
        let next = labels[labels[at]];
        labels[at] = next;
        at = next;
    }
    at
}

/// Gives two elements, and those that have their labels, one label.
fn unite(labels: &mut [usize], pair: Pair)
    requires one { pair.one < length labels.old }
    requires other { pair.other < length labels.old }
    requires falling { AreFalling labels.old }
    ensures long { length labels.new ≡ length labels.old }
    ensures falling { AreFalling labels.new }
    ensures chained { (pairs : List Pair) → Contains pairs pair → StayChained pairs labels.old labels.new }
    ensures kept { (f : ℕ → ℕ) → IsOneAlong f labels.new → IsOneAlong f labels.old }
    ensures united { (f : ℕ → ℕ) → IsOneAlong f labels.new → f pair.one ≡ f pair.other }
{
    let one = root_of(labels, pair.one);
    let other = root_of(labels, pair.other);
    if one < other {
        labels[other] = one;
    } else {
        labels[one] = other;
    }
}

/// Gives each element the label that its label has in the end.
fn flatten(labels: &mut [usize])
    requires { AreFalling labels.old }
    ensures classes { KeepsClasses labels.old labels.new }
    ensures flat { IsOneAlong (slice_index labels.new) labels.new }
{
    for k in 0..labels.len() {
        labels[k] = labels[labels[k]];
    }
}

/// Gives the same label to elements that are joined, and different ones to others.
pub fn settle_labels(pairs: &[Pair], labels: &mut [usize])
    requires within { All (IsWithin (length labels.old)) pairs.now }
    requires own { (k : ℕ) → k < length labels.old → slice_index labels.old k ≡ k }
    ensures long { length labels.new ≡ length labels.old }
    ensures label { AreBelow (length labels.old) labels.new (length labels.old) }
    ensures joined { TellJoined pairs.now (length labels.old) labels.new }
{
    for pair in pairs {
        unite(labels, *pair);
    }
    flatten(labels);
}
