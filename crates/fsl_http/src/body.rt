ghost use Rattle.std.specs.Prelude.{◌≡◌, ◌≤◌, length, IfOk, IfErr, OnOk};
ghost use Rattle.fsl_http.specs.Bodies.{ReadsBody};
ghost use Rattle.fsl_http.specs.Reading.{SendsNothing, FailsBy, Breaks};

use super::pieces::read_piece;
use super::request::HttpFault;
use fsl_outside::Link;
use fsl_text::Text;
use std::alloc::Global;

/// Reads a body of this size, which begins with the bytes that were read behind the head. It has fewer bytes if the connection
/// ends early. Fails with `Link` if a read failed, or with `Memory`.
pub fn read_body<L: Link>(
    alloc: Global,
    link: &mut L,
    front: &[u8],
    size: usize,
) -> Result<Text, HttpFault>
    ensures ok { IfOk result (ReadsBody (L.state link.old).present (L.state link.new).present front.now size) }
    ensures fits { IfOk result (λ text. length text ≤ size) }
    ensures err { IfErr result (FailsBy (L.state link.old).faults (L.state link.new).faults) }
    ensures broken { IfErr result (Breaks (L.state link.old).present (L.state link.new).present) }
    ensures sent { SendsNothing (L.state link.old).present (L.state link.new).present }
    ensures stands { (L.state link.new).standing ≡ (L.state link.old).standing }
    ensures later { (L.state link.old).faults ≤ (L.state link.new).faults }
    ensures same { OnOk result ((L.state link.new).faults ≡ (L.state link.old).faults) }
{
    let here = front.len().min(size);
    let Ok(mut body) = Vec::from_slice(alloc, &front[..here]) else {
        return Err(HttpFault::Memory);
    };
    // The room for all of it at once: a growth by doubling could take twice as much.
    if body.reserve_exact(size - here).is_err() {
        return Err(HttpFault::Memory);
    }
    while body.len() < size {
        let room = size - body.len();
        let count = read_piece(link, &mut body, room)?;
        if count == 0 {
            return Ok(Text::from_vec(body));
        }
    }
    Ok(Text::from_vec(body))
}
