//! Files, read whole or by parts, and written whole.

ghost use Rattle.std.specs.Prelude.{◌≡◌, ◌⊎◌, ℕ, Bool, IfOk, List, Option, Result, codes, false, length};
ghost use Rattle.std.specs.Result.{result_map_both};
ghost use Rattle.tiff_base.specs.declared.error.TiffError.{TiffError};

use tiff::TiffResult;

/// Files by their names. `OutOfMemory` says that there is no memory for the bytes; any other error
/// is one of the file.
pub trait Files {
    /// What a read of a name may return, with the files before and after it.
    ghost reads: { Self → List ℕ → Result (List ℕ) TiffError → Self → Type 0 } = { λ _ _ _ _. Unit {0} };

    /// What length a name may be told to have.
    ghost measures: { Self → List ℕ → Result (Option ℕ) TiffError → Self → Type 0 } = { λ _ _ _ _. Unit {0} };

    /// What a read of a part by a name may return: of so many bytes from an offset on.
    ghost reads_part: { Self → List ℕ → ℕ → ℕ → Result (List ℕ) TiffError → Self → Type 0 } = { λ _ _ _ _ _ _. Unit {0} };

    /// What a write of bytes by a name may return.
    ghost writes: { Self → List ℕ → List ℕ → Result (Unit {0}) TiffError → Self → Type 0 } = { λ _ _ _ _ _. Unit {0} };

    /// What an append by a name may return: of its bytes, and of those that overwrite others from
    /// an offset on.
    ghost appends: { Self → List ℕ → List ℕ → ℕ → List ℕ → Result (Unit {0}) TiffError → Self → Type 0 } = { λ _ _ _ _ _ _ _. Unit {0} };

    /// Whether two names may be told to be those of one file.
    ghost compares: { Self → List ℕ → List ℕ → Result Bool TiffError → Self → Type 0 } = { λ _ _ _ _ _. Unit {0} };

    /// All bytes of a file; for the name `-` those of standard input.
    fn read(&mut self, name: &str) -> TiffResult<Vec<u8>>
        ensures { reads self.old name.now (result_map_both (λ bytes. bytes.items) (λ e. e) result)
            self.new };

    /// How many bytes a file has, if parts of it can be read; `None` for one that can only be read
    /// whole, as standard input, `-`.
    fn len(&mut self, name: &str) -> TiffResult<Option<u64>>
        ensures { measures self.old name.now result self.new };

    /// `len` bytes of a file, from the offset `at` on. If the file has fewer there, that is an
    /// error of the file.
    fn read_at(&mut self, name: &str, at: u64, len: u64) -> TiffResult<Vec<u8>>
        ensures gives { reads_part self.old name.now at len
            (result_map_both (λ bytes. bytes.items) (λ e. e) result) self.new }
        ensures all { IfOk result (λ bytes. length bytes.items ≡ len) };

    /// Makes a file of these bytes; for the name `-` writes them to standard output.
    fn write(&mut self, name: &str, bytes: &[u8]) -> TiffResult<()>
        ensures { writes self.old name.now bytes.now result self.new };

    /// Appends bytes to a file, and then overwrites its bytes from an offset on. Between the two
    /// the file has all bytes that it had.
    fn append(&mut self, name: &str, more: &[u8], at: usize, over: &[u8]) -> TiffResult<()>
        ensures { appends self.old name.now more.now at over.now result self.new };

    /// Whether two names are those of one file, so that writing one replaces the other. The name
    /// `-` is that of no file. The only error is `OutOfMemory`.
    fn are_same(&mut self, one: &str, other: &str) -> TiffResult<bool>
        ensures compared { compares self.old one.now other.now result self.new }
        ensures stream { IfOk result (λ same.
            (one.now ≡ codes "-") ⊎ (other.now ≡ codes "-") → same ≡ false) };
}
