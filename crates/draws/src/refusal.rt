//! Faults by the numbers that calls are refused by.
ghost use Rattle.std.specs.Prelude.{◌≡◌, ◌≤◌, ℕ};
ghost use Rattle.draws.specs.Refusals.{refused_by};

/// A fault that a call is refused by, and its number, 1 to 8. A fault is shown as `refused by` and the number, in one piece; that
/// `Display` is written for each fault, since Rust has no impl of it for all types of a bound.
pub trait Refusal {
    ghost refusal: { Self → ℕ };

    /// The number.
    fn number(self) -> u32
        ensures { result ≡ refusal self };

    /// What the fault is shown as.
    fn text(self) -> &'static str
    where
        Self: Sized,
        ensures { result.now ≡ refused_by (refusal self) }
    {
        match self.number() {
            1 => "refused by 1",
            2 => "refused by 2",
            3 => "refused by 3",
            4 => "refused by 4",
            5 => "refused by 5",
            6 => "refused by 6",
            7 => "refused by 7",
            _ => "refused by 8",
        }
    }

    ghost known: { (fault : Self) → (1 ≤ refusal fault) × (refusal fault ≤ 8) };
}
