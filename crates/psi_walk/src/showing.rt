// Items that are printed, a line each. Nothing takes memory.
ghost use Rattle.std.specs.Prelude.{◌≡◌, ◌∷◌, ◌++◌, [], Bool, List, ℕ, length};
ghost use Rattle.psi_spec.specs.Hits.{marked};
ghost use Rattle.psi_spec.specs.Texts.{lines_text};
ghost use Rattle.psi_base.specs.Outside.{PrintsAll};
ghost use Rattle.psi_walk.specs.Tree.{says};
ghost use Rattle.psi_walk.specs.Walk.{Makes};

use psi_base::{Fault, World, print_all};
use psi_items::Items;
use psi_texts::Status;

// Prints an item and a line feed.
#[tactic(auto, using(psi_base::proofs::Printing::refused_first, psi_base::proofs::Printing::then_second))]
fn print_line<W: World>(item: &[u8], world: &mut W) -> Result<(), Fault>
    ensures { PrintsAll (W.outside world.old) (item.now ++ 10 ∷ []) result (W.outside world.new) }
{
    print_all(world, item)?;
    print_all(world, b"\n")
}

// Prints the marked items, a line each.
fn print_lines<W: World>(items: &Items, marks: &[bool], world: &mut W) -> Result<(), Fault>
    requires { length marks.now ≡ length items.now }
    ensures { PrintsAll (W.outside world.old) (lines_text (marked marks.now items.now)) result
        (W.outside world.new) }
{
    let mut place = 0;
    while let Some(item) = items.get(place) {
        if marks[place as usize] {
            print_line(item, world)?;
        }
        place += 1;
    }
    Ok(())
}

/// Prints the items that are shown, a line each, out of the list itself.
pub fn print_shown<W: World>(items: &Items, shown: &[bool], world: &mut W) -> Result<(), Status>
    requires { length shown.now ≡ length items.now }
    ensures { (words : List (List ℕ)) (taken : Bool) →
        Makes W.known words taken (says (lines_text (marked shown.now items.now))) (W.outside world.old) result
        (W.outside world.new) }
{
    match print_lines(items, shown, world) {
        Ok(()) => Ok(()),
        Err(Fault::Failed) => Err(Status::PrintFault),
        Err(Fault::NoMemory) => Err(Status::NoMemory),
    }
}
