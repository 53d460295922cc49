//! A stretch: other settings for a while.
ghost use Rattle.std.specs.Prelude.{◌≡◌};
ghost use Rattle.unit.specs.Rounding.{Rounds};

use crate::rounding::RoundingUnit;
use crate::settings::Settings;
use draws::{Source, SourceFault};

/// Holds the unit under other settings, and restores the earlier ones when it is dropped.
pub struct Stretch<'a> {
    unit: &'a mut RoundingUnit,
    earlier: Settings,
}

impl Stretch<'_> {
    /// As `RoundingUnit::round`, under the settings of the stretch.
    pub fn round<S: Source>(&self, x: i64, source: &mut S) -> Result<i32, SourceFault>
        ensures answer { Rounds S.coming self.now.unit.now x source.old source.new result }
    {
        self.unit.round(x, source)
    }
}

impl Drop for Stretch<'_> {
    fn drop(self)
        ensures { self.exit.0.now ≡ self.entry.earlier }
    {
        let Stretch { unit, earlier } = self;
        unit.set_settings(earlier);
    }
}

impl RoundingUnit {
    /// Rounds under other settings until the stretch ends.
    pub fn stretch(&mut self, settings: Settings) -> Stretch<'_>
        ensures earlier { result.earlier ≡ self.old }
        ensures settings { result.unit.now ≡ settings }
        ensures same { result.unit.ghost_name ≡ self.entry.ghost_name }
    {
        let earlier = self.settings();
        self.set_settings(settings);
        Stretch {
            unit: self,
            earlier,
        }
    }

    /// One rounding under other settings.
    pub fn round_under<S: Source>(
        &mut self,
        settings: Settings,
        x: i64,
        source: &mut S,
    ) -> Result<i32, SourceFault>
        ensures answer { Rounds S.coming settings x source.old source.new result }
        ensures restored { self.new ≡ self.old }
    {
        self.stretch(settings).round(x, source)
    }
}
