ghost use Rattle.std.specs.Prelude.{◌≡◌, ◌<◌, ◌≤◌, length, take, OnOk, OnErr, IfErr};
ghost use Rattle.jvm_edges.specs.Bytes.{Appends};
ghost use Rattle.jvm_edges.specs.Causes.{Rose};

use crate::sink::Sink;

/// A sink failed, after it took the first bytes.
#[derive(Clone, Copy, Debug, PartialEq, Eq)]
pub struct PartWritten {
    pub taken: u64,
}

/// Puts all the bytes, in as many puts as the sink needs. Where it fails, the sink took the bytes in front.
pub fn put_all<S: Sink>(sink: &mut S, bytes: &[u8]) -> Result<(), PartWritten>
    ensures ok { OnOk result (Appends (S.contents sink.old) bytes.now (S.contents sink.new)) }
    ensures part { IfErr result (λ e.
        Appends (S.contents sink.old) (take e.taken bytes.now) (S.contents sink.new)) }
    ensures short { IfErr result (λ e. e.taken < length bytes.now) }
    ensures kept { OnOk result (S.faults sink.new ≡ S.faults sink.old) }
    ensures cause { OnErr result (Rose (S.faults sink.old) (S.faults sink.new)) }
    ensures later { S.faults sink.old ≤ S.faults sink.new }
{
    let mut taken = 0;
    while taken < bytes.len() {
        match sink.put(&bytes[taken..]) {
            Ok(more) => taken += more,
            Err(_) => {
                return Err(PartWritten {
                    taken: taken as u64,
                });
            }
        }
    }
    Ok(())
}
