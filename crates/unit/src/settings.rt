//! The settings of the rounding unit.
ghost use Rattle.std.specs.Prelude.{◌≡◌, ◌≤◌, ℕ, true, Some, None, Ok, Err};
ghost use Rattle.unit.specs.Modes.{mode_number};
ghost use Rattle.draws.specs.DrawBits.{bits_in_range};
ghost use Rattle.unit.specs.Refusals.{shift_in_range, settings_fault, settings_refusal};

use crate::faults::SettingsFault;
use crate::modes::Mode;
use draws::DrawBits;

/// How the unit rounds: its mode, the n of its divisor 2^n, and its number k of draw bits. n is a plain number, as it is in the
/// laws; a type for it would repeat `DrawBits` with another fault.
#[derive(Clone, Copy, PartialEq, Eq, Debug)]
pub struct Settings {
    mode: Mode,
    n: u32,
    k: DrawBits,
    ghost low: { 1 ≤ n },
    ghost high: { n ≤ 32 },
}

/// n and k, where both are 1 to 32. k is looked at first.
fn checked(n: u64, k: u64) -> Result<(u32, DrawBits), SettingsFault>
    ensures { elim result [ Ok c ↦ (bits_in_range k ≡ true) × (shift_in_range n ≡ true) × (c.0 ≡ n) × (c.1.bits ≡ k) | Err e ↦ (mode : ℕ) → settings_fault mode n k ≡ Some e ] }
{
    let k = DrawBits::new(k)?;
    match u32::try_from(n) {
        Ok(n @ 1..=32) => Ok((n, k)),
        _ => Err(SettingsFault::ShiftOutOfRange),
    }
}

impl Settings {
    /// Refuses where k or n is out of range, in every mode.
    pub fn of(mode: Mode, n: u64, k: u64) -> Result<Settings, SettingsFault>
        ensures { elim result [ Ok s ↦ (settings_fault (mode_number mode) n k ≡ None) × (s.mode ≡ mode) × (s.n ≡ n) × (s.k.bits ≡ k) | Err e ↦ (settings_fault (mode_number mode) n k ≡ Some e) × (settings_refusal e ≡ 2) ] }
    {
        let (n, k) = checked(n, k)?;
        Ok(Settings { mode, n, k })
    }

    /// The same for a mode by its number, which may be any and is looked at last: refuses one that no mode has.
    pub fn new(mode: u64, n: u64, k: u64) -> Result<Settings, SettingsFault>
        ensures { elim result [ Ok s ↦ (settings_fault mode n k ≡ None) × (mode_number s.mode ≡ mode) × (s.n ≡ n) × (s.k.bits ≡ k) | Err e ↦ (settings_fault mode n k ≡ Some e) × (settings_refusal e ≡ 2) ] }
    {
        let (n, k) = checked(n, k)?;
        Ok(Settings {
            mode: Mode::try_from(mode)?,
            n,
            k,
        })
    }

    /// The mode.
    pub fn mode(self) -> Mode
        ensures { result ≡ self.mode }
    {
        self.mode
    }

    /// n: the unit divides by 2^n.
    pub fn shift(self) -> u32
        ensures value { result ≡ self.n }
        ensures low { 1 ≤ result }
        ensures high { result ≤ 32 }
    {
        self.n
    }

    /// k: a draw has k bits.
    pub fn draw_bits(self) -> DrawBits
        ensures { result ≡ self.k }
    {
        self.k
    }
}
