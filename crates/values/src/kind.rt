// What every kind of value owes.
ghost use Rattle.std.specs.Prelude.{◌≡◌, ℕ, ◌^◌, ◌≤◌, None, Decides, Option};
ghost use Rattle.values.specs.Kinds.{Spelled};

// A kind of value. An `impl` cannot be written without showing all of this.
pub trait Kind: Copy + Drop + PartialEq {
    // What a value means.
    ghost meaning: { Self → ℕ × ℕ };

    // The value that a pattern of a file stands for, if it stands for one.
    ghost reads: { ℕ → Option Self };

    // A pattern has 18 bits: no larger number is one.
    ghost narrow: { (pattern : ℕ) → 2 ^ 18 ≤ pattern → reads pattern ≡ None };

    // The kind has no value but those of its patterns.
    ghost spelled: { (value : Self) → Spelled reads value };

    fn from_pattern(pattern: u32) -> Option<Self>
        ensures { result ≡ reads pattern };

    // Two values are equal exactly when they mean the same.
    ghost same: { (one other : Self) → Decides (Self.eq one other) (meaning one ≡ meaning other) };
}
