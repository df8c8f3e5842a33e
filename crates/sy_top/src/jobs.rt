// What the program is told to do.

ghost use Rattle.std.specs.Prelude.{◌≡◌};
ghost use Rattle.sy_top.specs.Headline as spec;

/// What the program is to do. Of these [`Job::Check`] and [`Job::Serial`] are built so far.
#[derive(Clone, Copy, PartialEq, Eq, Debug)]
pub enum Job {
    Check,
    Serial,
    Run,
    SelfTest,
    Replay,
}

impl Job {
    /// Whether it waits for nobody.
    pub fn is_plain(self) -> bool
        ensures { result ≡ spec.is_plain self }
    {
        match self {
            Job::Check | Job::Serial | Job::Replay => true,
            Job::Run | Job::SelfTest => false,
        }
    }
}

/// What the words say: the job, and the number or the switch of each option.
#[derive(Clone, Copy, PartialEq, Eq, Debug)]
pub struct Settings {
    pub job: Job,
    pub workers: u32,
    pub turns: u64,
    pub seed: u32,
    pub groups: u32,
    pub stats: bool,
    pub trace: bool,
}
