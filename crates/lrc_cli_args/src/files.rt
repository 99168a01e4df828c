// The files that a choice names.

ghost use Rattle.std.specs.Prelude.{◌≡◌, option_map};
ghost use Rattle.lrc_cli_args.specs.Files.{events_along, events_of, file_of, reads_acts};

use crate::choice::{Choice, Way};

impl<'w> Choice<'w> {
    /// Returns the file of the text; `-` is standard input.
    pub fn file(&self) -> &'w str
        ensures { result.now ≡ file_of self.now }
    {
        match self {
            Choice::Check(file) => *file,
            Choice::Core(file) => *file,
            Choice::Plain(run) => run.file,
            Choice::Show(run, _) => run.options.file,
            Choice::Judge(judging) => judging.file,
            Choice::Explore(exploring) => exploring.file,
            Choice::Lint(file) => *file,
            Choice::WhyActs(acts, _) => acts.file,
            Choice::ChartActs(acts, _) => acts.file,
        }
    }

    /// Returns whether the text is a text of acts, instead of a program.
    pub fn reads_acts(&self) -> bool
        ensures { result ≡ reads_acts self.now }
    {
        matches!(
            self,
            Choice::Judge(_) | Choice::WhyActs(_, _) | Choice::ChartActs(_, _)
        )
    }

    /// Returns the file of the events, if the choice names one.
    pub fn events(&self) -> Option<&'w str>
        ensures { option_map (λ path. path.now) result ≡ events_of self.now }
    {
        match self {
            Choice::Show(run, _) => run.way.events(),
            _ => None,
        }
    }
}

impl<'w> Way<'w> {
    // The file of the events by which a run goes on, if it is one of events.
    fn events(&self) -> Option<&'w str>
        ensures { option_map (λ path. path.now) result ≡ events_along self.now }
    {
        match self {
            Way::Events(path) | Way::Followed(path, _) => Some(*path),
            Way::Rounds(_) | Way::Random(_) | Way::Threads(_) => None,
        }
    }
}
