ghost use Rattle.std.specs.Prelude.{◌≡◌, ◌<◌, ◌≤◌, IfOk, IfErr, OnOk};
ghost use Rattle.fsl_http.specs.Reading.{IsPiece, SendsNothing, FailsBy, Breaks};

use super::limits::PIECE;
use super::request::HttpFault;
use fsl_outside::Link;

/// Reads at most that many bytes in one read, and adds them to the text. Returns their number; 0 is the end. Fails with `Link` if
/// the read failed, or with `Memory`.
pub fn read_piece<L: Link>(
    link: &mut L,
    text: &mut Vec<u8>,
    room: usize,
) -> Result<usize, HttpFault>
    requires { 0 < room }
    ensures ok { IfOk result (IsPiece (L.state link.old).present (L.state link.new).present text.old.items text.new.items room) }
    ensures err { IfErr result (FailsBy (L.state link.old).faults (L.state link.new).faults) }
    ensures broken { IfErr result (Breaks (L.state link.old).present (L.state link.new).present) }
    ensures sent { SendsNothing (L.state link.old).present (L.state link.new).present }
    ensures stands { (L.state link.new).standing ≡ (L.state link.old).standing }
    ensures later { (L.state link.old).faults ≤ (L.state link.new).faults }
    ensures same { OnOk result ((L.state link.new).faults ≡ (L.state link.old).faults) }
{
    let mut piece = [0u8; PIECE];
    let most = room.min(PIECE);
    match link.read(&mut piece[..most]) {
        Ok(count) => {
            if text.extend_from_slice(&piece[..count]).is_err() {
                return Err(HttpFault::Memory);
            }
            Ok(count)
        }
        Err(_) => Err(HttpFault::Link),
    }
}
