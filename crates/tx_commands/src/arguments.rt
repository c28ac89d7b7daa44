// Commands with their arguments, as the library of command lines takes them.
ghost use Rattle.std.specs.Prelude.{◌≡◌, false};
ghost use Rattle.clap.specs.Words.{App, new_app, rule_of, with_rule};
ghost use Rattle.clap.specs.declared.builder.action.ArgAction.TheVariants.{Set};
ghost use Rattle.tx_commands.specs.Grammar as grammar;

use clap::{Arg, ArgAction, value_parser};
use std::alloc::{AllocError, Global};

/// What the help says of a plan.
pub(crate) const PLAN: &str = "The route plan: exchanges, codes, lines, groups, routes and
bars; - is standard input";

/// What the help says of the named risks.
pub(crate) const RISKS: &str = "The named risks, such as cables: lines RISK name
group .., between RISKS 1 and END; - is standard
input";

pub(crate) const OLD_PLAN: &str = "The plan that is in force; - is standard input";

pub(crate) const NEW_PLAN: &str = "The plan that is to be; - is standard input";

/// What the help says of the groups that are down.
pub(crate) const DOWN: &str = "The groups that are down, with a comma between two";

/// What it says of an exchange of which all groups are.
pub(crate) const DOWN_EXCHANGE: &str = "An exchange of which all groups are down";

const LIMIT: &str = "At most how many transits a call may pass: 0 to 62";

const SPARE: &str = "How many groups may be down: 0 to 15. After YES, a
call is answered NC only after a second head-on
collision, or where more than K groups are listed and
each of them is down or has no free circuit";

/// A command with its arguments so far, unless memory ran out.
#[derive(Drop)]
pub(crate) struct Syntax<'a> {
    alloc: Global,
    pub(crate) command: Result<clap::Command<'a>, AllocError>,
}

impl<'a> Syntax<'a> {
    ghost use Rattle.tx_commands.specs.inner.Takes.{Takes};

    /// A command, with what its help begins and ends with.
    pub(crate) fn new(alloc: Global, name: &'a str, about: &'a str, after: &'a str) -> Syntax<'a>
        ensures { Takes result (new_app name.now) }
    {
        let command = clap::Command::new(alloc, name)
            .about(about)
            .after_help(after);
        Syntax {
            alloc,
            command: Ok(command),
        }
    }

    /// A command whose first word is a plan.
    pub(crate) fn over_plan(
        alloc: Global,
        name: &'a str,
        about: &'a str,
        after: &'a str,
    ) -> Syntax<'a>
        ensures { Takes result (grammar.plan_words name.now) }
    {
        Syntax::new(alloc, name, about, after).file("plan", "PLAN", PLAN)
    }

    /// Adds an argument.
    fn arg(self, arg: Arg<'a>) -> Syntax<'a>
        requires { arg.global ≡ false }
        ensures { (app : App) → Takes self.entry app
            → Takes result (with_rule app (rule_of arg.entry)) }
    {
        let Syntax { alloc, command } = self;
        let command = match command {
            Ok(command) => command.arg(arg),
            Err(e) => Err(e),
        };
        Syntax { alloc, command }
    }

    /// Adds a file, which has to be named.
    pub(crate) fn file(self, id: &'a str, shown: &'a str, help: &'a str) -> Syntax<'a>
        ensures { (app : App) → Takes self.entry app
            → Takes result (with_rule app (grammar.file id.now)) }
    {
        let file = word(self.alloc, id, shown, help).required(true);
        self.arg(file)
    }

    /// Adds a word that goes by position, and need not be given.
    pub(crate) fn word(self, id: &'a str, shown: &'a str, help: &'a str) -> Syntax<'a>
        ensures { (app : App) → Takes self.entry app
            → Takes result (with_rule app (grammar.word id.now)) }
    {
        let word = word(self.alloc, id, shown, help);
        self.arg(word)
    }

    /// Adds words that go by position, and need not be given.
    pub(crate) fn words(self, id: &'a str, shown: &'a str, help: &'a str) -> Syntax<'a>
        ensures { (app : App) → Takes self.entry app
            → Takes result (with_rule app (grammar.some_words id.now)) }
    {
        let words = word(self.alloc, id, shown, help).num_args(1..);
        self.arg(words)
    }

    /// Adds an option with a word.
    pub(crate) fn option(self, id: &'a str, shown: &'a str, help: &'a str) -> Syntax<'a>
        ensures { (app : App) → Takes self.entry app
            → Takes result (with_rule app (grammar.option id.now)) }
    {
        let option = option(self.alloc, id, shown, help);
        self.arg(option)
    }

    /// Adds an option without a word.
    pub(crate) fn flag(self, id: &'a str, help: &'a str) -> Syntax<'a>
        ensures { (app : App) → Takes self.entry app
            → Takes result (with_rule app (grammar.flag id.now)) }
    {
        let flag = Arg::new(self.alloc, id)
            .long(id)
            .help(help)
            .action(ArgAction::SetTrue);
        self.arg(flag)
    }

    /// Adds a limit and a spare number, which may have to be given.
    pub(crate) fn limits(self, needed: bool) -> Syntax<'a>
        ensures { (app : App) → Takes self.entry app
            → Takes result (with_rule (with_rule app (record grammar.limit { required = needed }))
            (record grammar.spare { required = needed })) }
    {
        let limit = number(self.alloc, "limit", "L", LIMIT, 62).required(needed);
        let spare = number(self.alloc, "spare", "K", SPARE, 15).required(needed);
        self.arg(limit).arg(spare)
    }

    /// Adds an option with a number from 0 to the greatest.
    pub(crate) fn number(self, id: &'a str, shown: &'a str, help: &'a str, most: u8) -> Syntax<'a>
        ensures { (app : App) → Takes self.entry app
            → Takes result (with_rule app (grammar.number_option id.now most)) }
    {
        let number = number(self.alloc, id, shown, help, most);
        self.arg(number)
    }
}

/// A word that goes by position.
fn word<'a>(alloc: Global, id: &'a str, shown: &'a str, help: &'a str) -> Arg<'a>
    ensures rule { rule_of result ≡ grammar.word id.now }
    ensures local { result.global ≡ false }
{
    Arg::new(alloc, id)
        .value_name(shown)
        .help(help)
        .action(ArgAction::Set)
}

/// An option with a word.
fn option<'a>(alloc: Global, id: &'a str, shown: &'a str, help: &'a str) -> Arg<'a>
    ensures rule { rule_of result ≡ grammar.option id.now }
    ensures local { result.global ≡ false }
{
    word(alloc, id, shown, help).long(id)
}

/// An option with a number from 0 to the greatest.
fn number<'a>(alloc: Global, id: &'a str, shown: &'a str, help: &'a str, most: u8) -> Arg<'a>
    ensures rule { rule_of result ≡ grammar.number_option id.now most }
    ensures local { result.global ≡ false }
{
    option(alloc, id, shown, help).value_parser(value_parser!(u8).range(0..=i64::from(most)))
}
