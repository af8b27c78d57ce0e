ghost use Rattle.std.specs.Prelude.{◌≡◌, OnOk, OnErr};
ghost use Rattle.fsl_order.specs.Causes.{HasCause};
ghost use Rattle.fsl_http.specs.Sending.{Sends, SendsFront, joined};

use fsl_outside::{Failed, Link};

/// Writes all of the pieces, one after another. Fails only if a write failed, and then the connection took a front of them.
pub fn send_all<L: Link>(link: &mut L, pieces: &[&[u8]]) -> Result<(), Failed>
    ensures ok { OnOk result (Sends (L.state link.old).present (L.state link.new).present (joined pieces.now)) }
    ensures err { OnErr result (SendsFront (L.state link.old).present (L.state link.new).present (joined pieces.now)) }
    ensures stands { (L.state link.new).standing ≡ (L.state link.old).standing }
    ensures cause { HasCause (L.state link.old).faults (L.state link.new).faults result }
{
    for piece in pieces {
        send(link, piece)?;
    }
    Ok(())
}

// Writes all of the text. After a failed write the connection took a front of it.
fn send<L: Link>(link: &mut L, text: &[u8]) -> Result<(), Failed>
    ensures ok { OnOk result (Sends (L.state link.old).present (L.state link.new).present text.now) }
    ensures err { OnErr result (SendsFront (L.state link.old).present (L.state link.new).present text.now) }
    ensures stands { (L.state link.new).standing ≡ (L.state link.old).standing }
    ensures cause { HasCause (L.state link.old).faults (L.state link.new).faults result }
{
    let mut rest = text;
    while !rest.is_empty() {
        let count = link.write(rest)?;
        rest = &rest[count..];
    }
    Ok(())
}
