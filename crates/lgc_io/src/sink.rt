// Where bytes are written to.
ghost use Rattle.std.specs.Prelude.{◌≡◌, [], OnOk, IsOk, IsErrOf};
ghost use Rattle.lgc_io.specs.Sinks.{SinkState, Takes, TakesPart};

/// Why bytes weren't taken.
#[derive(Clone, Copy, Debug, PartialEq, Eq)]
pub enum SinkFault {
    /// The sink failed, and a fault was counted.
    Failed,
    /// Memory ran out.
    Memory,
}

/// A sink of bytes, with a count of faults.
pub trait Sink {
    ghost state: { Self → SinkState };

    /// Writes the bytes.
    ///
    /// With `Failed` the call raised the count of faults, and the first of the bytes, maybe
    /// none, were taken. `Memory` leaves the sink as it was. A put of no bytes succeeds and changes nothing.
    fn put(&mut self, bytes: &[u8]) -> Result<(), SinkFault>
        ensures ok { OnOk result (Takes (state self.old) (state self.new) bytes.now) }
        ensures failed { IsErrOf result SinkFault.Failed → TakesPart (state self.old) (state self.new) bytes.now }
        ensures memory { IsErrOf result SinkFault.Memory → state self.new ≡ state self.old }
        ensures nothing { bytes.now ≡ [] → IsOk result × (state self.new ≡ state self.old) };
}
