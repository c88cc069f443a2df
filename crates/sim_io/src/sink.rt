// Where bytes go.
ghost use Rattle.std.specs.Prelude.{◌≡◌, ◌<◌, ◌≤◌, List, ℕ, Option, length, take, IfOk, OnOk, OnErr};
ghost use Rattle.sim_io.specs.Outside.{Rose, extended, TookFront};

/// A write failed, and the sink's count of faults rose.
#[derive(Clone, Copy)]
pub struct SinkFault;

/// A sink of bytes, as a stream of the process.
pub trait Sink {
    /// The bytes that it took so far, where it tells.
    ghost taken: { Self → Option (List ℕ) };

    /// How many writes failed. It stands still at 2^64 - 1.
    ghost faults: { Self → ℕ };

    /// Takes a front of `piece` and answers its length in bytes, at least one where `piece` is not empty. A fault
    /// leaves what was taken, and raises the count.
    fn write(&mut self, piece: &[u8]) -> Result<usize, SinkFault>
        ensures within { IfOk result (λ n. n ≤ length piece.now) }
        ensures goes_on { IfOk result (λ n. 0 < length piece.now → 0 < n) }
        ensures taken { IfOk result (λ n. taken self.new ≡ extended (taken self.old) (take n piece.now)) }

        ensures ok { OnOk result (faults self.new ≡ faults self.old) }
        ensures err { OnErr result (taken self.new ≡ taken self.old) }
        ensures later { faults self.old ≤ faults self.new }
        ensures rose { OnErr result (Rose (faults self.old) (faults self.new)) };
}

/// Writes all of `bytes`. At a fault a front of them was taken, and the sink's count rose.
pub fn write_all<S: Sink>(sink: &mut S, bytes: &[u8]) -> Result<(), SinkFault>
    ensures taken { OnOk result (S.taken sink.new ≡ extended (S.taken sink.old) bytes.now) }
    ensures ok { OnOk result (S.faults sink.new ≡ S.faults sink.old) }

    ensures front { OnErr result (TookFront (S.taken sink.old) bytes.now (S.taken sink.new)) }
    ensures later { S.faults sink.old ≤ S.faults sink.new }
    ensures rose { OnErr result (Rose (S.faults sink.old) (S.faults sink.new)) }
{
    let mut done = 0;
    while done < bytes.len() {
        done += sink.write(&bytes[done..])?;
    }
    Ok(())
}
