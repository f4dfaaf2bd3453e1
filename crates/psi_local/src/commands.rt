// The commands of this crate by their names.
ghost use Rattle.psi_walk.specs.Command.{CarriesOut};
ghost use Rattle.psi_local.specs.Commands.{local_commands};

use crate::local::local_command;
use crate::make::make_command;
use crate::trial::trial_command;
use psi_base::{Words, World};
use psi_walk::Outcome;
use psi_words::word_at;
use std::alloc::Global;

/// Carries out the command of this crate that the first word names, and answers `None` where it names none of them.
pub fn carry_out<W: World>(alloc: Global, words: &Words, world: &mut W) -> Option<Outcome>
    // The command of that name answers as it says, or nothing is changed.
    ensures { CarriesOut local_commands W.known words.now (W.outside world.old) result (W.outside world.new) }
{
    let name = word_at(words, 0);
    if name == "local" {
        Some(local_command(alloc, words, world))
    } else if name == "make" {
        Some(make_command(alloc, words, world))
    } else if name == "trial" {
        Some(trial_command(alloc, words, world))
    } else {
        None
    }
}
