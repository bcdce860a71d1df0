//! Where the end of a command is reported.

/// Where the end of a command is reported: standard error, or a list in a test. A relation holds from before a call to after it.
pub trait Teller<F, L, B> {
    ghost use Rattle.std.specs.Prelude.{◌≡◌, ℕ, List};

    /// The exit status for a fault.
    ghost fault_status: { F → ℕ };

    /// The exit status for something that was left out.
    ghost left_status: { L → ℕ };

    /// This fault was reported.
    ghost tells_fault: { Self → F → Self → Type 0 };

    /// It was reported that this was left out.
    ghost tells_left: { Self → L → Self → Type 0 };

    /// It was reported that this was brought.
    ghost tells_brought: { Self → B → Self → Type 0 };

    /// It was reported in these words that the command line is wrong.
    ghost tells_misuse: { Self → List ℕ → Self → Type 0 };

    /// Reports a fault, and returns its exit status.
    fn fault(&mut self, fault: &F) -> u8
        ensures told { tells_fault self.old fault.now self.new }
        ensures status { result ≡ fault_status fault.now };

    /// Reports that this was left out, and returns its exit status.
    fn left(&mut self, left: &L) -> u8
        ensures told { tells_left self.old left.now self.new }
        ensures status { result ≡ left_status left.now };

    /// Reports what was brought.
    fn brought(&mut self, brought: &B)
        ensures { tells_brought self.old brought.now self.new };

    /// Reports that the command line is wrong.
    fn misuse(&mut self, line: &str)
        ensures { tells_misuse self.old line.now self.new };

    /// No fault has the exit status of success.
    ghost fails: { (fault : F) → ¬ (fault_status fault ≡ 0) };

    /// Nor has anything that was left out.
    ghost lacks: { (left : L) → ¬ (left_status left ≡ 0) };
}
