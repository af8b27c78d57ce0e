//! Writes the reply.
ghost use Rattle.std.specs.Prelude.{◌≡◌, ◌≢◌};
ghost use Rattle.fsl_order.specs.Causes.{Rose};
ghost use Rattle.fsl_outside.specs.Connections.{Between};
ghost use Rattle.fsl_http.specs.Replies.{IsStatus};
ghost use Rattle.fsl_serve.specs.declared.said.SessionEnd.TheVariants as end_as;
ghost use Rattle.fsl_serve.specs.Sessions.{sent_of, Took, Ends};
ghost use Rattle.fsl_serve.specs.Points.{Passes, answered};

use crate::said::{Said, SessionEnd};
use fsl_http::reply;
use fsl_outside::{Gate, Link, Point};

/// Sends the reply, and passes the gate once it is written.
pub(crate) fn send<K: Link, G: Gate>(
    link: &mut K,
    gate: &mut G,
    number: u64,
    said: &Said,
) -> SessionEnd
    requires { IsStatus (sent_of said.now).0 }
    ensures took { Between ((K.state link.old).present) ((K.state link.new).present) (λ c d. Took c d (sent_of said.now) result) }
    ensures ends { Ends (sent_of said.now) result }
    ensures cause { result ≡ end_as.Link → Rose ((K.state link.old).faults) ((K.state link.new).faults) }
    ensures same { result ≢ end_as.Link → (K.state link.new).faults ≡ (K.state link.old).faults }
    ensures stands { (K.state link.new).standing ≡ (K.state link.old).standing }
    ensures passed { Passes (G.passed gate.old) (G.passed gate.new) number (answered result) }
{
    let status = said.status();
    match reply(link, status, said.body()) {
        Ok(()) => {
            gate.pass(number, Point::Answered);
            SessionEnd::Answered { status }
        }
        Err(_) => SessionEnd::Link,
    }
}
