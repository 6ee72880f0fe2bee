//! Commands in the making.
ghost use Rattle.std.specs.Prelude.{◌≡◌, IfOk, true};
ghost use Rattle.clap.specs.Words.{App, Rule, app_of, new_app, rule_of, with_rule, with_subcommand};
ghost use Rattle.bf_grammar.specs.inner.Drafts.{IsDraftOf};

use clap::{Arg, Command};
use std::alloc::{AllocError, Global};

/// A `clap` command being built, or the want of memory that ended it. Steps after such a want do nothing, so that a
/// chain of them has no branch in which a command is dropped.
#[derive(Drop)]
pub(crate) struct Draft<'a> {
    pub(crate) command: Result<Command<'a>, AllocError>,
}

impl<'a> Draft<'a> {
    /// Begins the command `name`, without arguments. Its help begins with `about` and ends with `examples`.
    pub(crate) fn new(alloc: Global, name: &'a str, about: &'a str, examples: &'a str) -> Draft<'a>
        ensures { IsDraftOf (new_app name.entry.now) result }
    {
        let command = Command::new(alloc, name).about(about).after_help(examples);
        Draft {
            command: Ok(command),
        }
    }

    /// Adds an argument; ends the draft at want of memory, and leaves an ended one as it is.
    pub(crate) fn arg(self, argument: Arg<'a>) -> Draft<'a>
        ensures { (app : App) (rule : Rule) → IsDraftOf app self.entry → rule_of argument.entry
            ≡ rule
            → rule.is_simple ≡ true → IsDraftOf (with_rule app rule) result }
    {
        match self.command {
            Ok(command) => Draft {
                command: command.arg(argument),
            },
            Err(error) => Draft {
                command: Err(error),
            },
        }
    }

    /// Adds a subcommand; ends the draft where either has ended, or at want of memory.
    pub(crate) fn subcommand(self, subcommand: Draft<'a>) -> Draft<'a>
        ensures { (app sub : App) → IsDraftOf app self.entry → IsDraftOf sub subcommand.entry
            → sub.top.is_plain ≡ true → IsDraftOf (with_subcommand app sub.top) result }
    {
        match self.command {
            Ok(command) => Draft {
                command: subcommand.added_to(command),
            },
            Err(error) => Draft {
                command: Err(error),
            },
        }
    }

    /// Adds this command to `command` as a subcommand. `Err` where this draft ended at want of memory, or at want of it
    /// now.
    fn added_to(self, command: Command<'a>) -> Result<Command<'a>, AllocError>
        ensures { (sub : App) → IsDraftOf sub self.entry → sub.top.is_plain ≡ true
            → IfOk result (λ c. app_of c ≡ with_subcommand (app_of command.entry) sub.top) }
    {
        command.subcommand(self.command?)
    }
}
