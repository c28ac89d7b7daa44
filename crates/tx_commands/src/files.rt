// The files of a command.
ghost use Rattle.std.specs.Prelude.{◌≡◌, ◌∷◌, []};
ghost use Rattle.tx_commands.specs.Files.{names_if_any, names_of, only_read, one_read, two_read};

/// The name of standard input, where a file is read.
pub const STANDARD_INPUT: &str = "-";

/// The files of a command, by their names.
#[derive(Clone, Copy)]
pub struct Files<'a> {
    /// Those that it reads, in the order in which they are opened.
    pub reads: [Option<&'a str>; 3],
    /// The plan that it may make.
    pub plan: Option<&'a str>,
    /// The certificate that it may make.
    pub cert: Option<&'a str>,
    /// The script that it may make.
    pub script: Option<&'a str>,
    /// The page that it may make, in place of standard output.
    pub page: Option<&'a str>,
}

impl<'a> Files<'a> {
    /// Those of a command that reads these and makes none.
    pub(crate) fn reading(reads: [Option<&'a str>; 3]) -> Files<'a>
        ensures { names_of result ≡ only_read (names_if_any reads.entry) }
    {
        Files {
            reads,
            plan: None,
            cert: None,
            script: None,
            page: None,
        }
    }

    /// Those of a command that reads one file and makes none.
    pub(crate) fn of_one(file: &'a str) -> Files<'a>
        ensures { names_of result ≡ one_read file.now }
    {
        Files::reading([Some(file), None, None])
    }

    /// Those of a command that reads two files and makes none.
    pub(crate) fn of_two(first: &'a str, second: &'a str) -> Files<'a>
        ensures { names_of result ≡ two_read first.now second.now }
    {
        Files::reading([Some(first), Some(second), None])
    }

    /// Those that it may make, in the order in which they are made.
    pub fn makes(&self) -> [Option<&'a str>; 4]
        ensures { names_if_any result
            ≡ names_if_any (self.now.plan ∷ self.now.cert ∷ self.now.script ∷ self.now.page ∷ []) }
    {
        [self.plan, self.cert, self.script, self.page]
    }
}
