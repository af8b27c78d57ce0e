ghost use Rattle.std.specs.Prelude.{◌≡◌, ◌≤◌, ℕ, List, [], length, IfOk, IfErr, OnOk};
ghost use Rattle.fsl_http.specs.Limits.{most_head};
ghost use Rattle.fsl_http.specs.Heads.{IsFront, HasWhole, ReadsHead};
ghost use Rattle.fsl_http.specs.Reading.{SendsNothing, FailsBy, Breaks};

use super::limits::HEAD_LIMIT;
use super::pieces::read_piece;
use super::request::HttpFault;
use fsl_outside::Link;

/// The head at the front of some bytes.
#[derive(Clone, Copy)]
pub enum Front<H> {
    /// A whole head of that many bytes, and its meaning.
    Whole { len: usize, head: H },
    /// The bytes begin no head, whatever follows.
    Never,
    /// The bytes are no head so far.
    Open,
}

/// The meaning of a head at the front of some bytes.
pub trait Head: Copy {
    /// Says that a head of that many bytes is at the front and has this meaning.
    ghost begins: { List ℕ → ℕ → Self → Type 0 };

    /// Says that no head is at the front.
    ghost lacks: { List ℕ → Type 0 };

    /// Says that no head is at the front so far, and that one may be if more bytes follow.
    ghost opens: { List ℕ → Type 0 };

    /// Reads the head at the front of the bytes.
    fn front_of(bytes: &[u8]) -> Front<Self>
        requires { length bytes.now ≤ most_head }
        ensures { IsFront begins lacks opens bytes.now result };
}

/// Reads until the bytes begin with a head, or can't. `Open` means that they end before. Fails with `Link` if a read failed, or
/// with `Memory`.
pub fn read_head<L: Link, H: Head>(link: &mut L, bytes: &mut Vec<u8>) -> Result<Front<H>, HttpFault>
    requires { bytes.old.items ≡ [] }
    ensures ok { IfOk result (ReadsHead H.begins H.lacks H.opens (L.state link.old).present (L.state link.new).present bytes.new.items) }
    ensures whole { IfOk result (HasWhole H.begins bytes.new.items) }
    ensures err { IfErr result (FailsBy (L.state link.old).faults (L.state link.new).faults) }
    ensures broken { IfErr result (Breaks (L.state link.old).present (L.state link.new).present) }
    ensures sent { SendsNothing (L.state link.old).present (L.state link.new).present }
    ensures stands { (L.state link.new).standing ≡ (L.state link.old).standing }
    ensures later { (L.state link.old).faults ≤ (L.state link.new).faults }
    ensures same { OnOk result ((L.state link.new).faults ≡ (L.state link.old).faults) }
{
    while bytes.len() < HEAD_LIMIT {
        let room = HEAD_LIMIT - bytes.len();
        let count = read_piece(link, bytes, room)?;
        if count == 0 {
            return Ok(Front::Open);
        }
        match H::front_of(bytes) {
            Front::Whole { len, head } => return Ok(Front::Whole { len, head }),
            Front::Never => return Ok(Front::Never),
            Front::Open => {}
        }
    }
    Ok(Front::Never)
}
