//! Sends one request and reads its reply.
ghost use Rattle.std.specs.Prelude.{◌≤◌, IfOk, IfErr};
ghost use Rattle.fsl_pull.specs.Asking.{IsAsked, IsUnasked, IsAskCounted};

use crate::PeerFault;
use crate::replies::read_body;
use fsl_http::{ExchangeFault, exchange};
use fsl_outside::Dial;
use fsl_wire::Message;
use std::alloc::Global;

/// Why there is no reply that was read.
#[derive(Clone, Copy)]
pub(crate) enum Unasked {
    /// A call of the dial failed.
    Link,
    /// Memory for the reply ran out.
    Memory,
}

/// Sends a request on a connection of its own and reads the reply to it: answers its cards, or the first thing that is wrong
/// with it.
pub(crate) fn send_and_read<N: Dial>(
    alloc: Global,
    dial: &mut N,
    request: &[u8],
) -> Result<Result<Message, PeerFault>, Unasked>
    ensures asked { IfOk result (IsAsked (N.state dial.old) (N.state dial.new) request.now) }
    ensures unasked { IfErr result (IsUnasked (N.state dial.old) (N.state dial.new) request.now) }
    ensures later { (N.state dial.old).faults ≤ (N.state dial.new).faults }
    ensures counts { IsAskCounted (N.state dial.old) (N.state dial.new) result }
{
    match exchange(alloc, dial, request) {
        Ok(body) => match read_body(alloc, body.bytes()) {
            Ok(read) => Ok(read),
            Err(_) => Err(Unasked::Memory),
        },
        Err(ExchangeFault::Head) => Ok(Err(PeerFault::Head)),
        Err(ExchangeFault::Status { found }) => Ok(Err(PeerFault::Http { found })),
        Err(ExchangeFault::Long { found }) => Ok(Err(PeerFault::Long { found })),
        Err(ExchangeFault::Short { found }) => Ok(Err(PeerFault::Short { found })),
        Err(ExchangeFault::Link) => Err(Unasked::Link),
        Err(ExchangeFault::Memory) => Err(Unasked::Memory),
    }
}
