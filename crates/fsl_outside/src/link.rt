ghost use Rattle.std.specs.Prelude.{◌≡◌, ◌<◌, length, IfOk, OnOk, OnErr};
ghost use Rattle.std.specs.Io.{ReadsAtMost, WritesAtMost};
ghost use Rattle.fsl_order.specs.Causes.{HasCause};
ghost use Rattle.fsl_outside.specs.Connections.{LinkState, LinkReads, LinkWrites};
ghost use Rattle.fsl_outside.specs.Accepts.{Begins, AcceptLists, AcceptCounts};

use super::outside::Failed;

/// A connection, with bytes in both directions.
pub trait Link {
    /// The present connection, the parts that no read and no write changes, and the faults.
    ghost state: { Self → LinkState };

    /// Returns how many calls failed, up to the last value of `u64`. It never falls.
    fn faults(&self) -> u64
        ensures { result ≡ (state self.now).faults };

    /// Moves bytes to the front of `into`, and returns how many. If `into` isn't empty, 0 means the end. A call that failed moves
    /// nothing, and is counted on the connection too.
    fn read(&mut self, into: &mut [u8]) -> Result<usize, Failed>
        ensures bound { ReadsAtMost result into.new }
        ensures moves { LinkReads (state self.old).present (state self.new).present result into.new }
        ensures stands { (state self.new).standing ≡ (state self.old).standing }
        ensures cause { HasCause (state self.old).faults (state self.new).faults result };

    /// Takes bytes from the front of the piece, and returns how many: at least one if the piece isn't empty. A call that failed
    /// takes nothing, and is counted on the connection too.
    fn write(&mut self, piece: &[u8]) -> Result<usize, Failed>
        ensures bound { WritesAtMost result piece.now }
        ensures some { IfOk result (λ n. 0 < length piece.now → 0 < n) }
        ensures moves { LinkWrites (state self.old).present (state self.new).present result piece.now }
        ensures stands { (state self.new).standing ≡ (state self.old).standing }
        ensures cause { HasCause (state self.old).faults (state self.new).faults result };
}

/// A link that begins connections.
pub trait Dial: Link {
    /// Begins a new connection. The present one joins the earlier ones as it is. If the connections are recorded, a call that
    /// failed changes neither. A dial over sockets lets the present one go before it tries, and has none then.
    fn connect(&mut self) -> Result<(), Failed>
        ensures begins { OnOk result (Begins (Self.state self.old) (Self.state self.new)) }
        ensures accepts { (Self.state self.new).standing.accept_faults ≡ (Self.state self.old).standing.accept_faults }
        ensures closings { (Self.state self.new).standing.closings ≡ (Self.state self.old).standing.closings }
        ensures kept { OnErr result ((Self.state self.new).present ≡ (Self.state self.old).present) }
        ensures stands { OnErr result ((Self.state self.new).standing ≡ (Self.state self.old).standing) }
        ensures cause { HasCause (Self.state self.old).faults (Self.state self.new).faults result };
}

/// The answer of a door.
#[derive(Clone, Copy, Debug, PartialEq, Eq)]
pub enum Accepted {
    /// A connection has begun.
    Connection,
    /// No connection comes, and the door is closed.
    Closed,
}

/// A link whose connections come from outside.
pub trait Door: Link {
    /// Returns how many accepts failed, up to the last value of `u64`. It never falls.
    fn accept_faults(&self) -> u64
        ensures { result ≡ (Self.state self.now).standing.accept_faults };

    /// Returns how often an accept found the door closed, up to the last value of `u64`. It never falls.
    fn closings(&self) -> u64
        ensures { result ≡ (Self.state self.now).standing.closings };

    /// Takes the next connection. The present one joins the earlier ones as it is. If the connections are recorded, a call that
    /// failed or that finds the door closed changes neither. A door over sockets lets the present one go before it waits, and has
    /// none then.
    fn accept(&mut self) -> Result<Accepted, Failed>
        ensures lists { IfOk result (AcceptLists (Self.state self.old) (Self.state self.new)) }
        ensures counts { AcceptCounts result (Self.state self.old).standing (Self.state self.new).standing }
        ensures kept { OnErr result ((Self.state self.new).present ≡ (Self.state self.old).present) }
        ensures earlier { OnErr result ((Self.state self.new).standing.earlier ≡ (Self.state self.old).standing.earlier) }
        ensures same { (Self.state self.new).faults ≡ (Self.state self.old).faults };

    /// Finishes the present connection, so that its peer doesn't wait for its end. The record of the door stays.
    fn leave(&mut self)
        ensures same { Self.state self.new ≡ Self.state self.old };
}
