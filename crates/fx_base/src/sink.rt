//! A sink for bytes, and the call that puts all of a piece.

ghost use Rattle.std.specs.Prelude.{◌≡◌, ◌≢◌, ℕ, ◌<◌, ◌≤◌, List, length, Option, OnErr, IfErr, OnOk};
ghost use Rattle.fx_base.specs.Faults.{Rose};
ghost use Rattle.fx_base.specs.Told.{Told};
ghost use Rattle.fx_base.specs.Sink.{Gains, put_count, taken_count};

/// The sink failed.
#[derive(Clone, Copy, Debug, PartialEq, Eq)]
pub struct SinkFailed;

/// A sink for bytes. It may take less than it is given.
pub trait Sink {
    /// The bytes that were taken, where they are told.
    ghost taken: { Self → Option (List ℕ) };

    /// The count of faults.
    ghost faults: { Self → ℕ };

    /// Takes the first bytes of a piece, and answers how many.
    fn put(&mut self, bytes: &[u8]) -> Result<usize, SinkFailed>
        ensures count { put_count result ≤ length bytes.now }
        // The bytes counted were taken, and no others; a call that fails takes none.
        ensures taken { Told (Gains bytes.now (put_count result)) (taken self.old) (taken self.new) }
        ensures later { faults self.old ≤ faults self.new }
        ensures failed { OnErr result (Rose (faults self.old) (faults self.new)) }
        // To take none of a piece that isn't empty is a fault too.
        ensures stuck { 0 < length bytes.now → put_count result ≡ 0 → Rose (faults self.old) (faults self.new) };
}

/// Not all bytes were taken.
#[derive(Clone, Copy, Debug, PartialEq, Eq)]
pub struct WriteFault {
    /// How many were.
    pub taken: u64,
}

/// Puts all the bytes, piece by piece as the sink takes them. It takes no memory.
pub fn put_all<S: Sink>(sink: &mut S, bytes: &[u8]) -> Result<(), WriteFault>
    // All bytes are taken, and behind a fault as many as it says, the first ones.
    ensures taken { Told (Gains bytes.now (taken_count result bytes.now)) (S.taken sink.old) (S.taken sink.new) }
    ensures part { IfErr result (λ fault. fault.taken < length bytes.now) }
    // A fault comes only where the sink's count rose.
    ensures fault { OnErr result (Rose (S.faults sink.old) (S.faults sink.new)) }
    ensures later { S.faults sink.old ≤ S.faults sink.new }
{
    let mut taken = 0;
    while taken < bytes.len() {
        match sink.put(&bytes[taken..]) {
            Ok(0) | Err(SinkFailed) => {
                return Err(WriteFault {
                    taken: taken as u64,
                });
            }
            Ok(count) => taken += count,
        }
    }
    Ok(())
}
