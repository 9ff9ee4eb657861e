// What samples are judged by: the settings, their row of the table of matrices, and the limits of both.
ghost use Rattle.std.specs.Prelude.{◌≡◌, ◌+◌, ◌≤◌};
ghost use Rattle.rule_laws.specs.Usable.{Reach};
ghost use Rattle.check_limits.specs.Limits.{LimitsOf};

use crate::SettingsLimits;
use rules::{Named, Settings};

#[derive(Clone, Copy)]
pub struct Judge {
    pub settings: Settings,
    pub named: Named,
    pub limits: SettingsLimits,
    pub ghost reach: { Reach settings },
    pub ghost limits_of: { LimitsOf settings named limits },
}

impl Judge {
    pub fn new(settings: Settings, named: Named) -> Judge
        requires reach { Reach settings }
        requires kb_bound { named.kr + named.kb ≤ 10000 }
        ensures { (result.settings ≡ settings) × (result.named ≡ named) }
    {
        Judge {
            settings,
            named,
            limits: crate::limits_of(settings, named),
        }
    }
}
