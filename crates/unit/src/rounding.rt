//! The unit and one rounding under its settings.
ghost use Rattle.std.specs.Prelude.{◌≡◌};
ghost use Rattle.unit.specs.Laws.{UnitLaws};
ghost use Rattle.unit.specs.Rounding.{DrawsQuotient, Rounds};

use crate::division::clamp;
use crate::modes::Mode;
use crate::settings::Settings;
use draws::{Comparison, Neighbour, Source, SourceFault};
use std::marker::Model;

impl Settings {
    /// The floor of x / 2^n or the next whole number, as the draw of the next word decides.
    fn drawn_quotient<S: Source>(&self, x: i64, source: &mut S) -> Result<i64, SourceFault>
        ensures { DrawsQuotient S.coming self.now.n self.now.k.bits x source.old source.new result }
    {
        let (floor, rest) = self.floor_and_rest(x);
        let count = self.far_count(rest);
        match source.take()?.decide(&Comparison, self.draw_bits(), count) {
            Neighbour::Near => Ok(floor),
            Neighbour::Far => Ok(floor + 1),
        }
    }

    /// x / 2^n under these settings. `RoundingUnit::round` is this, with its laws; in one function with them it did not prove.
    fn rounded<S: Source>(&self, x: i64, source: &mut S) -> Result<i32, SourceFault>
        ensures { Rounds S.coming self.now x source.old source.new result }
    {
        // a mode is a value that is stored, compared and printed, which no closure can be
        let quotient = match self.mode() {
            Mode::Down => self.floor_and_rest(x).0,
            Mode::Nearest => self.nearest(x),
            Mode::Stochastic => self.drawn_quotient(x, source)?,
        };
        Ok(clamp(quotient))
    }
}

/// Divides by 2^n and rounds, as its settings say.
#[derive(Drop)]
pub struct RoundingUnit {
    settings: Settings,
}

/// It stands for its settings.
impl Model for RoundingUnit {
    ghost use Rattle.unit.specs.declared.settings.Settings.{Settings};

    ghost Value = { Settings };

    ghost view = { λ u. u.settings };
}

impl RoundingUnit {
    /// A unit with these settings.
    pub fn new(settings: Settings) -> RoundingUnit
        ensures { result ≡ settings }
    {
        RoundingUnit { settings }
    }

    /// The settings it has now.
    pub fn settings(&self) -> Settings
        ensures { result ≡ self.now }
    {
        self.settings
    }

    /// Replaces the settings.
    pub fn set_settings(&mut self, settings: Settings)
        ensures { self.new ≡ settings }
    {
        self.settings = settings;
    }

    /// x / 2^n as a signed 32-bit number. The stochastic mode takes a word, and refuses where none is left. That the settings
    /// stay is in `&self`; the clause says it, and holds of any body.
    pub fn round<S: Source>(&self, x: i64, source: &mut S) -> Result<i32, SourceFault>
        ensures answer { Rounds S.coming self.now x source.old source.new result }
        ensures settings { self.exit.now ≡ self.entry.now }
        ensures laws { UnitLaws self.now.n self.now.k.bits x }
    {
        self.settings.rounded(x, source)
    }
}
