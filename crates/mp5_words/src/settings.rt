ghost use Rattle.std.specs.Prelude.{◌≡◌, ◌≤◌, ◌↔◌, IsSome, IsNone, IfSome};
ghost use Rattle.mp5_words.specs.declared.settings.TheConstants.{MAX_PIPELINES, MAX_WINDOW, MAX_ROUND};
ghost use Rattle.mp5_words.specs.Ranges.{AreSettings};

/// The most pipelines that a switch has.
pub const MAX_PIPELINES: u32 = 8;

/// The most own arrivals of a pipeline that are out at once.
pub const MAX_WINDOW: u32 = 1024;

/// The most arrivals of a round.
pub const MAX_ROUND: u32 = 65536;

/// How a switch is run.
#[derive(Clone, Copy, Debug, PartialEq, Eq)]
pub struct Settings {
    /// How many pipelines there are, from 1 to 8.
    pub pipelines: u32,
    /// How many own arrivals of a pipeline may be out at once, from 1 to 1,024.
    pub window: u32,
    /// How many arrivals a round has, from 1 to 65,536.
    pub round: u32,
    pub ghost some_pipeline: { 1 ≤ pipelines },
    pub ghost most_pipelines: { pipelines ≤ MAX_PIPELINES },
    pub ghost some_window: { 1 ≤ window },
    pub ghost most_window: { window ≤ MAX_WINDOW },
    pub ghost some_round: { 1 ≤ round },
    pub ghost most_round: { round ≤ MAX_ROUND },
}

impl Settings {
    /// The settings of these numbers. None where one of them is out of its range.
    pub fn new(pipelines: u32, window: u32, round: u32) -> Option<Settings>
        ensures some { IsSome result ↔ AreSettings pipelines window round }
        ensures pipelines { IfSome result (λ s. s.pipelines ≡ pipelines) }
        ensures window { IfSome result (λ s. s.window ≡ window) }
        ensures round { IfSome result (λ s. s.round ≡ round) }
    {
        let is_within = (1..=MAX_PIPELINES).contains(&pipelines)
            && (1..=MAX_WINDOW).contains(&window)
            && (1..=MAX_ROUND).contains(&round);
        if is_within {
            Some(Settings {
                pipelines,
                window,
                round,
            })
        } else {
            None
        }
    }
}

#[cfg(test)]
mod tests {
    use super::*;

    #[test]
    fn each_number_has_its_range(rt: HostRuntime) {
        for (pipelines, window, round, want) in [
            (1, 1, 1, true),
            (8, 1024, 65536, true),
            (0, 64, 256, false),
            (9, 64, 256, false),
            (4, 0, 256, false),
            (4, 1025, 256, false),
            (4, 64, 0, false),
            (4, 64, 65537, false),
        ] {
            let is_there = Settings::new(pipelines, window, round).is_some();
            assert_eq!(rt; is_there, want, "at {pipelines} {window} {round}");
        }
    }
}
