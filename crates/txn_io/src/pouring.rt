ghost use Rattle.std.specs.Prelude.{OnOk, OnErr};
ghost use Rattle.txn_io.specs.Faults.{HasCause};
ghost use Rattle.txn_io.specs.Pour.{Appends, AppendsPart};

use super::sink::Sink;
use thiserror::Error;

/// Why a piece was not written whole.
#[derive(Clone, Copy, Debug, PartialEq, Eq, Error)]
pub enum PourFault {
    #[error("the output failed")]
    Sink,
}

/// Writes all of a piece, by as many calls as the sink asks for. It takes no memory.
///
/// After a failure some first bytes of the piece are written.
pub fn pour<K: Sink>(sink: &mut K, bytes: &[u8]) -> Result<(), PourFault>
    ensures done { OnOk result (Appends K.Sink sink.old sink.new bytes.now) }
    ensures part { OnErr result (AppendsPart K.Sink sink.old sink.new bytes.now) }
    ensures kept { HasCause (K.faults sink.old) (K.faults sink.new) result }
{
    let mut done = 0;
    while done < bytes.len() {
        done += match sink.put(&bytes[done..]) {
            Ok(count) => count,
            Err(_) => return Err(PourFault::Sink),
        };
    }
    Ok(())
}
