//! Commands on two ledgers, which answer alike.
ghost use Rattle.tf_journal.specs.Lawful.{IsLawfulAt};

use crate::ledgers::run;
use crate::look_ups::{are_all_alike, is_alike};
use std::alloc::Global;
use tf_journal::Ledger;
use tf_script::Command;
use tf_trials::{Plain, is_same};

/// Whether a forest and a plain ledger answer a command alike, and after it look-ups of what it names.
fn is_command_alike<M: Ledger>(
    alloc: Global,
    plain: &mut Plain,
    forest: &mut M,
    command: &Command<Global>,
) -> bool
    requires { IsLawfulAt (M.clock forest.old) (M.journal forest.old) }
    ensures { IsLawfulAt (M.clock forest.new) (M.journal forest.new) }
{
    let expected = plain.run(alloc, command);
    let answer = run(alloc, alloc, forest, command);
    let is_same = is_same(&answer, &expected);
    drop(answer);
    drop(expected);
    is_same && is_alike(plain.ledger(), forest, command)
}

/// Whether a forest and an empty plain ledger answer each command alike. After each one look-ups of what it names are alike, and
/// after the last those of all that was named.
pub fn are_commands_alike<M: Ledger>(
    alloc: Global,
    forest: &mut M,
    commands: &[Command<Global>],
) -> bool
    requires { IsLawfulAt (M.clock forest.old) (M.journal forest.old) }
{
    let mut plain = Plain::new(alloc);
    for command in commands {
        if !is_command_alike(alloc, &mut plain, forest, command) {
            return false;
        }
    }
    are_all_alike(plain.ledger(), forest, commands)
}
