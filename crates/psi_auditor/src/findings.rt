// What the audit of a consistent record shows, and its text. Printing takes no memory.
ghost use Rattle.std.specs.Prelude.{◌≡◌, ◌≤◌, ◌++◌, Bool, List, ℕ, codes, length};
ghost use Rattle.psi_base.specs.Outside.{PrintsAll};
ghost use Rattle.psi_walk.specs.Tree.{says};
ghost use Rattle.psi_walk.specs.Walk.{Makes};
ghost use Rattle.psi_auditor.specs.Audit.{audit_text, collision_line, collision_lines, number_line};

use psi_base::{Fault, Pairs, Places, World, print_all};
use psi_texts::{Line, Status};

/// What a consistent record shows.
#[derive(Drop)]
pub struct Findings {
    /// The places of the receiver's items that are shown.
    pub shown: Places,
    /// Of each of these that is no item of the sender its place, and that of the sender's item that it names.
    pub collisions: Pairs,
}

// Prints a line with a name and a number.
#[tactic(auto, unfolding(crate::specs::Audit::number_line))]
fn print_number<W: World>(name: &str, number: usize, world: &mut W) -> Result<(), Fault>
    requires { length name.now ≤ 20 }
    ensures { PrintsAll (W.outside world.old) (number_line name.now number) result (W.outside world.new) }
{
    let line = Line::begin(name).with_number(number as u64).with("\n");
    print_all(world, line.bytes())
}

// The line of a collision.
fn collision(item: u32, named: u32) -> Line
    ensures { result.text.bytes ≡ collision_line (item, named) }
{
    Line::begin("collision ")
        .with_number(u64::from(item))
        .with(" ")
        .with_number(u64::from(named))
        .with("\n")
}

// Prints a line for each collision.
fn print_collisions<W: World>(collisions: &Pairs, world: &mut W) -> Result<(), Fault>
    ensures { PrintsAll (W.outside world.old) (collision_lines collisions.now) result (W.outside world.new) }
{
    for place in 0..collisions.len() {
        let (item, named) = collisions.get(place).unwrap();
        print_all(world, collision(item, named).bytes())?;
    }
    Ok(())
}

// Prints the counts, and a line for each collision.
#[tactic(auto, using(psi_base::proofs::Printing::refused_first, psi_base::proofs::Printing::then_second))]
fn print_counts<W: World>(found: &Findings, world: &mut W) -> Result<(), Fault>
    ensures { PrintsAll (W.outside world.old) (number_line (codes "shown ") (length found.now.shown)
        ++ (number_line (codes "collisions ") (length found.now.collisions)
        ++ collision_lines found.now.collisions)) result (W.outside world.new) }
{
    print_number("shown ", found.shown.len(), world)?;
    print_number("collisions ", found.collisions.len(), world)?;
    print_collisions(&found.collisions, world)
}

// Prints the text of a consistent record.
#[tactic(auto, using(psi_base::proofs::Printing::refused_first, psi_base::proofs::Printing::then_second), unfolding(crate::specs::Audit::audit_text))]
fn print_text<W: World>(found: &Findings, world: &mut W) -> Result<(), Fault>
    ensures { PrintsAll (W.outside world.old) (audit_text (length found.now.shown) found.now.collisions) result
        (W.outside world.new) }
{
    print_all(world, b"consistent\n")?;
    print_counts(found, world)
}

/// Prints what a consistent record shows: that it is consistent, how many items are shown, how many collisions there
/// are, and a line with both places of each collision.
pub fn print_findings<W: World>(found: &Findings, world: &mut W) -> Result<(), Status>
    ensures { (words : List (List ℕ)) (taken : Bool) →
        Makes W.known words taken (says (audit_text (length found.now.shown) found.now.collisions))
        (W.outside world.old) result (W.outside world.new) }
{
    match print_text(found, world) {
        Ok(()) => Ok(()),
        Err(Fault::Failed) => Err(Status::PrintFault),
        Err(Fault::NoMemory) => Err(Status::NoMemory),
    }
}
