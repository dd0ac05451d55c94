//! Messages and hellos that come to a resource.

ghost use Rattle.std.specs.Prelude.{◌≡◌, IfOk};
ghost use Rattle.audit.specs.declared.item.Item.TheVariants as item;
ghost use Rattle.audit.specs.Lines.{Takes, Hears};
ghost use Rattle.audit.specs.Steps.Standings.{IsGoing};
ghost use Rattle.audit.specs.Steps.Following.{Meets};
ghost use Rattle.audit.specs.Steps.Settled.{Leaves};

use crate::book_of_audit::BookOfAudit;
use crate::needs::Need;
use crate::outcome::Outcome;
use crate::reason::Reason;
use evaluation::Message;
use exchange_core::Accepted;
use node_reports::Station;
use std::alloc::AllocError;

/// Receives the entry whose message came. What wouldn't be taken changes nothing, and needs no entry.
#[tactic(auto, using(crate::proofs::GoingOn::received_going))]
pub(crate) fn receive(
    station: &mut Station,
    message: &Message,
    book: &BookOfAudit,
) -> Result<Outcome, AllocError>
    requires { IsGoing book.now station.old }
    ensures going { IsGoing book.now station.new }
    ensures resource { station.new.journal.resource ≡ station.old.journal.resource }
    ensures meets { IfOk result (Meets book.now (Takes station.old station.new message.now) station.old station.new (item.Message message.now)) }
    ensures leaves { IfOk result (Leaves book.now book.now) }
{
    match station.core().messages().would_accept(message) {
        Accepted::Taken => {}
        Accepted::Old | Accepted::Stray | Accepted::Unused => return Ok(Outcome::Done),
    }
    let name = message.name();
    let Some(entry) = book.find(name) else {
        return Ok(Outcome::Waits(Need::Evaluation(name)));
    };
    if !entry.message().same(message) {
        return Ok(Outcome::Stops(Reason::Differs(name)));
    }
    station.receive(entry.try_clone()?)?;
    Ok(Outcome::Done)
}

/// Hears of an incarnation in which that resource can have been. What would be no news changes nothing.
#[tactic(auto, using(crate::proofs::GoingOn::heard_going))]
pub(crate) fn hear(
    station: &mut Station,
    of: usize,
    incarnation: u32,
    book: &BookOfAudit,
) -> Result<Outcome, AllocError>
    requires { IsGoing book.now station.old }
    ensures going { IsGoing book.now station.new }
    ensures resource { station.new.journal.resource ≡ station.old.journal.resource }
    ensures meets { IfOk result (Meets book.now (Hears station.old station.new of incarnation) station.old station.new (item.Hello of incarnation)) }
    ensures leaves { IfOk result (Leaves book.now book.now) }
{
    if !station.core().messages().would_hear(of, incarnation) {
        return Ok(Outcome::Done);
    }
    if !book.can_be_heard(of, incarnation) {
        return Ok(Outcome::Waits(Need::Incarnation {
            resource: of,
            incarnation,
        }));
    }
    station.hear(of, incarnation)?;
    Ok(Outcome::Done)
}
