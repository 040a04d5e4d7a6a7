// Files by name.
ghost use Rattle.std.specs.Prelude.{◌≡◌, IsErrOf, Ok};
ghost use Rattle.lgc_io.specs.Files.{FilesState, GainsFile, IsLonger, FailsAt};

/// What a read found.
#[derive(Clone, Copy, Debug, PartialEq, Eq)]
pub enum Reading {
    /// The whole file was appended.
    Whole,
    /// The file is longer than the limit, and nothing was appended.
    TooLong,
}

/// Why a read gave nothing.
#[derive(Clone, Copy, Debug, PartialEq, Eq)]
pub enum FileFault {
    /// The file couldn't be read, and a fault was counted.
    Failed,
    /// Memory ran out.
    Memory,
}

/// Files by name. Faults are counted, and the last one keeps its file's name.
pub trait Files {
    ghost state: { Self → FilesState };

    /// Appends the bytes of the file `name` to `into`, where there are at most `limit`.
    ///
    /// With `Failed` the call raised the count of faults, and the last fault's name
    /// is `name`. Whatever isn't `Whole` leaves `into` as it was, and whatever isn't `Failed` leaves
    /// the count and the name. The files stay the same.
    fn read_file(
        &mut self,
        name: &str,
        limit: usize,
        into: &mut Vec<u8>,
    ) -> Result<Reading, FileFault>
        ensures whole { result ≡ Ok Reading.Whole → GainsFile (state self.old) name.now limit into.old.items into.new.items }
        ensures long { result ≡ Ok Reading.TooLong → IsLonger (state self.old) name.now limit }
        ensures failed { IsErrOf result FileFault.Failed → FailsAt (state self.old) (state self.new) name.now }

        ensures unread { (result ≡ Ok Reading.Whole → ⊥) → into.new.items ≡ into.old.items }
        ensures quiet { (IsErrOf result FileFault.Failed → ⊥) → state self.new ≡ state self.old }
        ensures told { (state self.new).told ≡ (state self.old).told };
}
