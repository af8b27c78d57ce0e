//! Runs a session.
ghost use Rattle.std.specs.Prelude.{◌≡◌, ◌≢◌, ◌≤◌, ◌^◌, ℕ, List as Items, [], None, Ok, IfOk, IfErr, length};
ghost use Rattle.fsl_order.specs.Causes.{Rose};
ghost use Rattle.fsl_http.specs.declared.request.Asked.TheVariants as asked_as;
ghost use Rattle.fsl_http.specs.Replies.{IsStatus};
ghost use Rattle.fsl_wire.specs.Messages.{IsMessage};
ghost use Rattle.fsl_login.specs.declared.User.{User};
ghost use Rattle.fsl_login.specs.Logins.{granted};
ghost use Rattle.fsl_serve.specs.declared.said.SessionEnd.TheVariants as end_as;
ghost use Rattle.fsl_serve.specs.Calls.{Gains};
ghost use Rattle.fsl_serve.specs.Clocking.{AtMoment};
ghost use Rattle.fsl_serve.specs.Session.{login_in};
ghost use Rattle.fsl_serve.specs.Sessions.{IsReplied, sent_of, IsJudged};
ghost use Rattle.fsl_serve.specs.Points.{Passes, HasSession, arrived};

use crate::bodies::{login_failed, not_allowed, unread};
use crate::events::run;
use crate::receipts::receipt_now;
use crate::said::{Halt, Said, SessionEnd};
use crate::sending::send;
use crate::shared::Serving;
use crate::turning::Calls;
use fsl_answer::refusal;
use fsl_disk::Disk;
use fsl_http::{Asked, HttpFault, ask};
use fsl_login::{Users, granted_by};
use fsl_name::Name;
use fsl_outside::{Clock, Gate, Link};
use fsl_repo::Repo;
use fsl_text::Text;
use fsl_wire::{Caps, Draft, Message};
use std::alloc::Global;

/// The message of a body and what its logins allow, or what is said in place of more. The body is let go. A login that isn't
/// accepted ends the hashing: the tails behind it are never made.
fn hear(alloc: Global, users: &Users, body: Text) -> Result<(Message, Caps), Said>
    ensures heard { IfOk result (λ h. IsMessage body h.0 × (granted users.now h.0 ≡ Ok h.1)) }
    ensures short { IfOk result (λ h. length (login_in h.0) ≤ 2 ^ 20) }
    ensures unheard { IfErr result (λ said. (project : Items ℕ) → IsReplied users.now project (asked_as.Body body) None [] (sent_of said)) }
    ensures status { IfErr result (λ said. IsStatus (sent_of said).0) }
{
    // The names of users are short, which their type keeps.
    let _ = users.items();
    match Draft::read(alloc, body.bytes()) {
        Ok(mut draft) => match granted_by(users, &mut draft) {
            Ok(caps) => Ok((draft.into_message(), caps)),
            Err(_) => Err(login_failed(alloc)),
        },
        Err(fault) => Err(unread(alloc, fault)),
    }
}

/// What is said to a message with these privileges: its refusal, or its events, for which the clock is asked once.
fn said_to_message<T: Calls<Repo<D>>, D: Disk, G: Gate, C: Clock>(
    serving: &Serving<T>,
    pass: &mut T::Pass,
    gate: &mut G,
    clock: &mut C,
    number: u64,
    message: Message,
    caps: Caps,
) -> Said
    requires short { length (login_in message) ≤ 2 ^ 20 }
    ensures grown { T.grows pass.old pass.new }
    ensures status { IsStatus (sent_of result).0 }
    ensures made { Gains D.state (T.calls pass.old) (T.calls pass.new) (λ made. AtMoment (C.told clock.old) (C.told clock.new) (λ moment. (users : Items User) → granted users message ≡ Ok caps → IsJudged users serving.now.project message moment made (sent_of result)) × Passes (G.passed gate.old) (G.passed gate.new) number (arrived made)) }
{
    match refusal(&message, caps, serving.project) {
        Some(reason) => not_allowed(serving.alloc, reason),
        None => match receipt_now(serving.alloc, &message, clock) {
            Ok(mut receipt) => run(serving, pass, gate, number, message, caps, &mut receipt),
            Err(_) => Said::Halted(Halt::Memory),
        },
    }
}

/// What is said to the body of a request, which is let go before the first event.
fn said_to<T: Calls<Repo<D>>, D: Disk, G: Gate, C: Clock>(
    serving: &Serving<T>,
    pass: &mut T::Pass,
    gate: &mut G,
    clock: &mut C,
    number: u64,
    body: Text,
) -> Said
    ensures grown { T.grows pass.old pass.new }
    ensures status { IsStatus (sent_of result).0 }
    ensures made { Gains D.state (T.calls pass.old) (T.calls pass.new) (λ made. AtMoment (C.told clock.old) (C.told clock.new) (λ moment. IsReplied serving.now.users.now serving.now.project (asked_as.Body body) moment made (sent_of result)) × Passes (G.passed gate.old) (G.passed gate.new) number (arrived made)) }
{
    match hear(serving.alloc, serving.users, body) {
        Ok((message, caps)) => {
            said_to_message(serving, pass, gate, clock, number, message, caps)
        }
        Err(said) => said,
    }
}

/// Serves the present connection. It reads one request, makes its events one by one, and writes one reply. Behind its refusal
/// test and before its first arrival it asks the clock once, for the receipt of all that it brings. That receipt has the user of
/// the first login or `nobody`. The gate is passed behind the arrivals and announcements, and once the reply is written.
/// FORMATS: Users, logins and replies
pub fn session<T: Calls<Repo<D>>, D: Disk, K: Link, G: Gate, C: Clock>(
    alloc: Global,
    turns: &T,
    pass: &mut T::Pass,
    users: &Users,
    project: Name,
    link: &mut K,
    gate: &mut G,
    clock: &mut C,
    number: u64,
) -> SessionEnd
    ensures grown { T.grows pass.old pass.new }
    ensures session { HasSession D.state users.now project number (T.calls, pass.old, pass.new) (K.state, link.old, link.new) (G.passed, gate.old, gate.new) (C.told, clock.old, clock.new) result }
    ensures cause { result ≡ end_as.Link → Rose ((K.state link.old).faults) ((K.state link.new).faults) }
    ensures same { result ≢ end_as.Link → (K.state link.new).faults ≡ (K.state link.old).faults }
    ensures stands { (K.state link.new).standing ≡ (K.state link.old).standing }
{
    let serving = Serving {
        turns,
        alloc,
        users,
        project,
    };
    serve_link(&serving, pass, link, gate, clock, number)
}

/// The same, with what all sessions share in one place.
pub(crate) fn serve_link<T: Calls<Repo<D>>, D: Disk, K: Link, G: Gate, C: Clock>(
    serving: &Serving<T>,
    pass: &mut T::Pass,
    link: &mut K,
    gate: &mut G,
    clock: &mut C,
    number: u64,
) -> SessionEnd
    ensures grown { T.grows pass.old pass.new }
    ensures session { HasSession D.state serving.now.users.now serving.now.project number (T.calls, pass.old, pass.new) (K.state, link.old, link.new) (G.passed, gate.old, gate.new) (C.told, clock.old, clock.new) result }
    ensures cause { result ≡ end_as.Link → Rose ((K.state link.old).faults) ((K.state link.new).faults) }
    ensures same { result ≢ end_as.Link → (K.state link.new).faults ≡ (K.state link.old).faults }
    ensures stands { (K.state link.new).standing ≡ (K.state link.old).standing }
{
    match ask(serving.alloc, link) {
        Ok(Asked::Closed) => SessionEnd::Closed,
        Ok(Asked::Refused { status }) => send(link, gate, number, &Said::Refused(status)),
        Ok(Asked::Body(body)) => {
            let said = said_to(serving, pass, gate, clock, number, body);
            send(link, gate, number, &said)
        }
        Err(HttpFault::Link) => SessionEnd::Link,
        Err(HttpFault::Memory) => send(link, gate, number, &Said::Halted(Halt::Memory)),
    }
}
