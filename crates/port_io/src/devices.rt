//! What a source and a sink are. Each counts its own faults, so that a caller can show that a fault
//! was reported only where the device had one.

ghost use Rattle.std.specs.Prelude.{◌≡◌, ℕ, ◌<◌, ◌≤◌, List, Option, length, take, IfOk, OnErr};
ghost use Rattle.std.specs.Io.KnownBytes.{Appends, Consumes, IsAtEnd, Keeps};
ghost use Rattle.port_io.specs.Devices.{CountsFault};

/// The answer of a device that failed. Nothing was taken or appended by that call.
#[derive(Clone, Copy, Debug, PartialEq, Eq)]
pub struct Failed;

/// Where bytes come from.
pub trait Source {
    // The bytes still to come, where the source tells them.
    ghost left: { Self → Option (List ℕ) };

    // How many faults the source has counted. It never falls, and stands still at 2^64 - 1.
    ghost faults: { Self → ℕ };

    /// Puts the next bytes at the start of `buf` and answers how many. `buf` has room for at least
    /// one, and so 0 means the end of the input. What stands behind these bytes is not promised.
    /// `Failed` comes only where the count of faults rose in this call or stands at its last value.
    fn read(&mut self, buf: &mut [u8]) -> Result<usize, Failed>
        requires { 0 < length buf.old }
        ensures within { IfOk result (λ n. n ≤ length buf.new) }
        ensures taken { IfOk result (λ n. Consumes (left self.old) (left self.new) (take n buf.new)) }
        ensures end { IfOk result (λ n. n ≡ 0 → IsAtEnd (left self.new)) }
        ensures kept { OnErr result (Keeps (left self.old) (left self.new)) }
        ensures counted { OnErr result (CountsFault (faults self.old) (faults self.new)) }
        ensures never_falls { faults self.old ≤ faults self.new };
}

/// Where bytes go.
pub trait Sink {
    // The bytes that were written, where the sink tells them.
    ghost written: { Self → Option (List ℕ) };

    // How many faults the sink has counted. It never falls, and stands still at 2^64 - 1.
    ghost faults: { Self → ℕ };

    /// Appends the first bytes of `piece` and answers how many, at least one. `piece` isn't empty.
    /// `Failed` comes only where the count of faults rose in this call or stands at its last value.
    fn write(&mut self, piece: &[u8]) -> Result<usize, Failed>
        requires { 0 < length piece.now }
        ensures some { IfOk result (λ n. 0 < n) }
        ensures within { IfOk result (λ n. n ≤ length piece.now) }
        ensures appended { IfOk result (λ n. Appends (written self.old) (written self.new) (take n piece.now)) }
        ensures kept { OnErr result (Keeps (written self.old) (written self.new)) }
        ensures counted { OnErr result (CountsFault (faults self.old) (faults self.new)) }
        ensures never_falls { faults self.old ≤ faults self.new };
}
