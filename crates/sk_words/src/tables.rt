//! The tables of commands and options.

ghost use Rattle.std.specs.Prelude.{◌≡◌};
ghost use Rattle.std.specs.List.{list_any};
ghost use Rattle.std.specs.Str.{bytes_eq};
ghost use Rattle.sk_words.specs.Request.{all_commands, all_options, name_of, needs as needs_of, uses as uses_of, word_of};

/// The options, in the order of their table.
#[derive(Clone, Copy, Debug)]
pub enum OptionName {
    Leap,
    Kernel,
    Obs,
    Sc,
    TolNs,
    RateDecimals,
    BandPpm,
    SlipNs,
    Hold,
    Id,
    Clock,
    Seed,
    Count,
    Reject,
    Time,
    New,
    Over,
    From,
    To,
}

/// The commands, in the order of their table.
#[derive(Clone, Copy, Debug)]
pub enum Command {
    Publish,
    Residuals,
    Normal,
    Convert,
    Sample,
    Invert,
    Audit,
    Excerpt,
    Least,
    Plot,
}

static COMMANDS: [Command; 10] = [
    Command::Publish,
    Command::Residuals,
    Command::Normal,
    Command::Convert,
    Command::Sample,
    Command::Invert,
    Command::Audit,
    Command::Excerpt,
    Command::Least,
    Command::Plot,
];

static OPTIONS: [OptionName; 19] = [
    OptionName::Leap,
    OptionName::Kernel,
    OptionName::Obs,
    OptionName::Sc,
    OptionName::TolNs,
    OptionName::RateDecimals,
    OptionName::BandPpm,
    OptionName::SlipNs,
    OptionName::Hold,
    OptionName::Id,
    OptionName::Clock,
    OptionName::Seed,
    OptionName::Count,
    OptionName::Reject,
    OptionName::Time,
    OptionName::New,
    OptionName::Over,
    OptionName::From,
    OptionName::To,
];

static PUBLISH_NEEDS: [OptionName; 3] = [OptionName::Kernel, OptionName::Obs, OptionName::Sc];

static PUBLISH_USES: [OptionName; 11] = [
    OptionName::Leap,
    OptionName::Kernel,
    OptionName::Obs,
    OptionName::Sc,
    OptionName::TolNs,
    OptionName::RateDecimals,
    OptionName::BandPpm,
    OptionName::SlipNs,
    OptionName::Hold,
    OptionName::Id,
    OptionName::Reject,
];

static RESIDUALS_NEEDS: [OptionName; 3] = [OptionName::Kernel, OptionName::Obs, OptionName::Sc];

static RESIDUALS_USES: [OptionName; 4] = [
    OptionName::Leap,
    OptionName::Kernel,
    OptionName::Obs,
    OptionName::Sc,
];

static NORMAL_NEEDS: [OptionName; 1] = [OptionName::Kernel];

static NORMAL_USES: [OptionName; 1] = [OptionName::Kernel];

static CONVERT_NEEDS: [OptionName; 3] = [OptionName::Kernel, OptionName::Sc, OptionName::Clock];

static CONVERT_USES: [OptionName; 4] = [
    OptionName::Leap,
    OptionName::Kernel,
    OptionName::Sc,
    OptionName::Clock,
];

static SAMPLE_NEEDS: [OptionName; 2] = [OptionName::Seed, OptionName::Count];

static SAMPLE_USES: [OptionName; 5] = [
    OptionName::TolNs,
    OptionName::RateDecimals,
    OptionName::BandPpm,
    OptionName::Seed,
    OptionName::Count,
];

static INVERT_NEEDS: [OptionName; 3] = [OptionName::Kernel, OptionName::Sc, OptionName::Time];

static INVERT_USES: [OptionName; 4] = [
    OptionName::Leap,
    OptionName::Kernel,
    OptionName::Sc,
    OptionName::Time,
];

static AUDIT_NEEDS: [OptionName; 4] = [
    OptionName::Kernel,
    OptionName::Obs,
    OptionName::Sc,
    OptionName::New,
];

static AUDIT_USES: [OptionName; 11] = [
    OptionName::Leap,
    OptionName::Kernel,
    OptionName::Obs,
    OptionName::Sc,
    OptionName::TolNs,
    OptionName::RateDecimals,
    OptionName::BandPpm,
    OptionName::SlipNs,
    OptionName::Hold,
    OptionName::Reject,
    OptionName::New,
];

static EXCERPT_NEEDS: [OptionName; 4] = [
    OptionName::Kernel,
    OptionName::Sc,
    OptionName::From,
    OptionName::To,
];

static EXCERPT_USES: [OptionName; 5] = [
    OptionName::Kernel,
    OptionName::Sc,
    OptionName::Over,
    OptionName::From,
    OptionName::To,
];

static LEAST_NEEDS: [OptionName; 3] = [OptionName::Kernel, OptionName::Obs, OptionName::Sc];

static LEAST_USES: [OptionName; 5] = [
    OptionName::Leap,
    OptionName::Kernel,
    OptionName::Obs,
    OptionName::Sc,
    OptionName::TolNs,
];

static PLOT_NEEDS: [OptionName; 3] = [OptionName::Kernel, OptionName::Obs, OptionName::Sc];

static PLOT_USES: [OptionName; 6] = [
    OptionName::Leap,
    OptionName::Kernel,
    OptionName::Obs,
    OptionName::Sc,
    OptionName::TolNs,
    OptionName::New,
];

impl OptionName {
    /// All options, in the order of their table.
    pub fn all() -> &'static [OptionName]
        ensures { result.now ≡ all_options }
    {
        OPTIONS.as_slice()
    }

    /// The name of the option, without its dashes.
    pub fn word(self) -> &'static str
        ensures { result.now ≡ name_of self }
    {
        match self {
            OptionName::Leap => "leap",
            OptionName::Kernel => "kernel",
            OptionName::Obs => "obs",
            OptionName::Sc => "sc",
            OptionName::TolNs => "tol-ns",
            OptionName::RateDecimals => "rate-decimals",
            OptionName::BandPpm => "band-ppm",
            OptionName::SlipNs => "slip-ns",
            OptionName::Hold => "hold",
            OptionName::Id => "id",
            OptionName::Clock => "clock",
            OptionName::Seed => "seed",
            OptionName::Count => "count",
            OptionName::Reject => "reject",
            OptionName::Time => "time",
            OptionName::New => "new",
            OptionName::Over => "over",
            OptionName::From => "from",
            OptionName::To => "to",
        }
    }
}

impl Command {
    /// All commands.
    pub fn all() -> &'static [Command]
        ensures { result.now ≡ all_commands }
    {
        COMMANDS.as_slice()
    }

    /// The word that asks for the command.
    pub fn word(self) -> &'static str
        ensures { result.now ≡ word_of self }
    {
        match self {
            Command::Publish => "publish",
            Command::Residuals => "residuals",
            Command::Normal => "normal",
            Command::Convert => "convert",
            Command::Sample => "sample",
            Command::Invert => "invert",
            Command::Audit => "audit",
            Command::Excerpt => "excerpt",
            Command::Least => "least",
            Command::Plot => "plot",
        }
    }

    /// The options that the command needs, in the order of the option table.
    pub fn needs(self) -> &'static [OptionName]
        ensures { result.now ≡ needs_of self }
    {
        match self {
            Command::Publish => PUBLISH_NEEDS.as_slice(),
            Command::Residuals => RESIDUALS_NEEDS.as_slice(),
            Command::Normal => NORMAL_NEEDS.as_slice(),
            Command::Convert => CONVERT_NEEDS.as_slice(),
            Command::Sample => SAMPLE_NEEDS.as_slice(),
            Command::Invert => INVERT_NEEDS.as_slice(),
            Command::Audit => AUDIT_NEEDS.as_slice(),
            Command::Excerpt => EXCERPT_NEEDS.as_slice(),
            Command::Least => LEAST_NEEDS.as_slice(),
            Command::Plot => PLOT_NEEDS.as_slice(),
        }
    }

    /// The options that the command uses.
    pub fn uses(self) -> &'static [OptionName]
        ensures { result.now ≡ uses_of self }
    {
        match self {
            Command::Publish => PUBLISH_USES.as_slice(),
            Command::Residuals => RESIDUALS_USES.as_slice(),
            Command::Normal => NORMAL_USES.as_slice(),
            Command::Convert => CONVERT_USES.as_slice(),
            Command::Sample => SAMPLE_USES.as_slice(),
            Command::Invert => INVERT_USES.as_slice(),
            Command::Audit => AUDIT_USES.as_slice(),
            Command::Excerpt => EXCERPT_USES.as_slice(),
            Command::Least => LEAST_USES.as_slice(),
            Command::Plot => PLOT_USES.as_slice(),
        }
    }

    /// The command uses the option.
    pub fn uses_option(self, name: OptionName) -> bool
        ensures { result ≡ list_any (λ used. bytes_eq (name_of used) (name_of name)) (uses_of self) }
    {
        self.uses().iter().any(|used| used.word() == name.word())
    }
}
