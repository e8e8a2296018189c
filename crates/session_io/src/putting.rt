//! Whole pieces to a sink.

ghost use Rattle.std.specs.Prelude.{ℕ, ◌≤◌, OnOk, IfErr, IsErrOf};
ghost use Rattle.std.specs.Io.KnownBytes.{Appends};
ghost use Rattle.nil_io.specs.Causes.{Rose};
ghost use Rattle.session_io.specs.Stops.{IsStopped};

use super::stop::Stop;
use nil_io::Sink;

/// Writes a whole piece: a rest that isn't taken is handed again.
pub fn put_all<K: Sink>(out: &mut K, bytes: &[u8]) -> Result<(), Stop>
    ensures ok { OnOk result (Appends (K.written out.old) (K.written out.new) bytes.now) }
    ensures err { IfErr result (IsStopped bytes.now (K.written out.old) (K.written out.new)) }
    ensures later { K.faults out.old ≤ K.faults out.new }
    ensures cause { IsErrOf result Stop.Failed → Rose (K.faults out.old) (K.faults out.new) }
    ensures memory { IsErrOf result Stop.Memory → ⊥ }
{
    let mut at = 0;
    while at < bytes.len() {
        match out.write(&bytes[at..]) {
            Ok(count) => at += count,
            Err(_) => return Err(Stop::Failed),
        }
    }
    Ok(())
}
