// What the examples share: the words of a command, and a run with what it has to answer.
use psi_base::{MemWorld, NoMemory, Words};
use psi_top::{fault_line, run};
use std::alloc::Global;
use std::process::Abort;

/// The seed of 64 digits 0.
pub const ZERO_SEED: &str = "0000000000000000000000000000000000000000000000000000000000000000";

/// The words of a command.
pub fn words_of(alloc: Global, texts: &[&str]) -> Result<Words, NoMemory> {
    let mut words = Words::new(alloc);
    for text in texts {
        words.push(text)?;
    }
    Ok(words)
}

/// The line of a run that is done.
pub const DONE: &str = "";

/// Runs the words over the world, and asserts the line that names how the run ends and all that is printed
/// by then.
pub fn expect_run(
    rt: &(impl Abort + AllocGlobal),
    texts: &[&str],
    world: &mut MemWorld,
    line: &str,
    printed: &[u8],
    name: &str,
) -> Result<(), NoMemory> {
    let words = words_of(rt.alloc(), texts)?;
    let outcome = run(rt.alloc(), &words, world);
    let mut out = [0; 120];
    let length = fault_line(&outcome.status, &mut out);
    assert_eq!(rt; &out[..length], line.as_bytes(), "at {name}");
    assert_eq!(rt; world.printed(), printed, "at {name}");
    Ok(())
}
