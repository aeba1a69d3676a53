//! The commands of a program as a table, and how `clap` is told of it.

use clap::builder::ValueParser;
use clap::{Arg, ArgAction, ArgMatches, Command, Error};
use std::alloc::{AllocError, Global};
use std::convert::AsStr;

/// A program, with its commands.
pub struct Program {
    /// The word that it is called by, also in its help.
    pub name: &'static str,
    /// What `--version` prints after the name.
    pub version: &'static str,
    /// What it is for, the first line of its help.
    pub about: &'static str,
    /// What its help ends with.
    pub details: &'static str,
    /// The arguments of every command, before its own. (The last is `--verbose`, in each program.)
    pub shared: &'static [Argument],
    /// Its commands, in the order in which its help lists them.
    pub commands: &'static [Subcommand],
}

/// A command of a program, with its help and its arguments.
pub struct Subcommand {
    /// The word that it is called by.
    pub name: &'static str,
    /// What it does, the first line of its help.
    pub about: &'static str,
    /// What its help ends with, if it has more to say.
    pub details: Option<&'static str>,
    /// Its own arguments, after the shared ones.
    pub arguments: &'static [Argument],
}

/// An argument of a command. Each is required but a flag and an option that may be left out.
pub struct Argument {
    /// The name by which its value is asked for; of an option or a flag also its word, after `--`.
    pub id: &'static str,
    /// Whether it is an option, a flag, one word or all words.
    pub form: ArgumentForm,
    /// How the help writes its value, as `FILE`. A flag has none.
    pub value_name: &'static str,
    /// What values it takes. A flag takes none.
    pub values: ValueParser<'static>,
    /// Its line in the help.
    pub help: &'static str,
}

/// How the words give an argument.
#[derive(Clone, Copy)]
pub enum ArgumentForm {
    /// An option, `--ID VALUE`.
    Option,
    /// The same, which may be left out.
    FreeOption,
    /// An option without a value, `--ID`, which may be left out.
    Flag,
    /// The same, for which also `-` and this letter may stand.
    ShortFlag(char),
    /// One word, known by its position.
    Word,
    /// All words from its position on, at least one.
    Words,
}

/// The last argument of every command of every program.
pub(crate) static VERBOSE: Argument = Argument {
    id: "verbose",
    form: ArgumentForm::ShortFlag('v'),
    value_name: "",
    values: ValueParser::Bool,
    help: "Says why, in a second line on standard error",
};

impl Program {
    /// What the words ask for; the first of them is the program's name. A request for help or for
    /// the version is an `Err`, too.
    pub fn matches_of<'a, S: AsStr>(
        &self,
        alloc: Global,
        words: &'a [S],
    ) -> Result<ArgMatches<'a>, Error> {
        self.command(alloc)?.try_get_matches_from(words)
    }

    fn command<'a>(&self, alloc: Global) -> Result<Command<'a>, AllocError> {
        let mut command = heading(alloc, self.name, self.about)
            .version(self.version)
            .after_help(self.details)
            .subcommand_required(true)
            .arg_required_else_help(true);
        for subcommand in self.commands {
            command = command.subcommand(subcommand.command(alloc, self.shared)?)?;
        }
        Ok(command)
    }
}

impl Subcommand {
    fn command<'a>(&self, alloc: Global, shared: &[Argument]) -> Result<Command<'a>, AllocError> {
        let command = heading(alloc, self.name, self.about);
        let command = match self.details {
            Some(details) => command.after_help(details),
            None => command,
        };
        let command = with_arguments(alloc, command, shared)?;
        let command = with_arguments(alloc, command, self.arguments)?;
        command.arg(VERBOSE.arg(alloc))
    }
}

// A command without arguments or further commands.
fn heading<'a>(alloc: Global, name: &'static str, about: &'static str) -> Command<'a> {
    Command::new(alloc, name).about(about)
}

fn with_arguments<'a>(
    alloc: Global,
    mut command: Command<'a>,
    arguments: &[Argument],
) -> Result<Command<'a>, AllocError> {
    for argument in arguments {
        command = command.arg(argument.arg(alloc))?;
    }
    Ok(command)
}

impl Argument {
    fn arg<'a>(&self, alloc: Global) -> Arg<'a> {
        let arg = Arg::new(alloc, self.id).help(self.help);
        match self.form {
            ArgumentForm::Option => self.with_value(arg).long(self.id).required(true),
            ArgumentForm::FreeOption => self.with_value(arg).long(self.id),
            ArgumentForm::Flag => arg.long(self.id).action(ArgAction::SetTrue),
            ArgumentForm::ShortFlag(letter) => {
                arg.short(letter).long(self.id).action(ArgAction::SetTrue)
            }
            ArgumentForm::Word => self.with_value(arg).required(true),
            ArgumentForm::Words => self.with_value(arg).required(true).num_args(1..),
        }
    }

    // An argument with a value.
    fn with_value<'a>(&self, arg: Arg<'a>) -> Arg<'a> {
        arg.value_name(self.value_name).value_parser(self.values)
    }
}
