ghost use Rattle.std.specs.Prelude.{◌≡◌};
ghost use Rattle.book.specs.Fits.{told_of};
ghost use Rattle.book.specs.Presents.{ArePresentWith};

use evaluation::Evaluation;

/// What an entry tells of a resource's incarnation: its own, or the one of which its maker had heard.
fn told_of(evaluation: &Evaluation, resource: usize) -> u32
    ensures { result ≡ told_of resource evaluation.now }
{
    let name = evaluation.name();
    if name.task.resource == resource {
        return name.incarnation;
    }
    evaluation.heard().get(resource).copied().unwrap_or(0)
}

/// Raises the present incarnations of the resources to what one more entry tells of them. No memory is needed.
pub fn raise_present(present: &mut Vec<u32>, evaluation: &Evaluation)
    ensures { ArePresentWith evaluation.now present.old.items present.new.items }
{
    for resource in 0..present.len() {
        present[resource] = present[resource].max(told_of(evaluation, resource));
    }
}
