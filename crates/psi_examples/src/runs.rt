// What the examples share: the words of a command, a world with two files, and a run with what it
// has to answer.
use psi_base::{MemWorld, NoMemory, Words};
use psi_top::{fault_line, run};
use std::alloc::{AllocError, Global};
use std::process::Abort;

/// The seed of 64 digits 0.
pub const ZERO_SEED: &str = "0000000000000000000000000000000000000000000000000000000000000000";

/// The words `local x y SEED 0 16` with the seed of zeros.
pub const LOCAL: &[&str] = &["local", "x", "y", ZERO_SEED, "0", "16"];

/// The words of a command.
pub fn words_of(alloc: Global, texts: &[&str]) -> Result<Words, NoMemory> {
    let mut words = Words::new(alloc);
    for text in texts {
        words.push(text)?;
    }
    Ok(words)
}

/// A world with the files x and y, each of them only where its content is given.
pub fn world_of(alloc: Global, x: Option<&[u8]>, y: Option<&[u8]>) -> Result<MemWorld, NoMemory> {
    let mut world = MemWorld::new(alloc);
    if let Some(bytes) = x {
        world.put_file("x", bytes)?;
    }
    if let Some(bytes) = y {
        world.put_file("y", bytes)?;
    }
    Ok(world)
}

/// So many lines of a letter and a number, from 0 on.
pub fn numbered_lines(alloc: Global, letter: char, count: u32) -> Result<String, AllocError> {
    let mut lines = String::new(alloc);
    for number in 0..count {
        lines.push_str(&format!(in alloc; "{letter}{number}\n")?)?;
    }
    Ok(lines)
}

/// The line of a run that is done.
pub const DONE: &str = "";

/// Runs the words over the world, and asserts the line that names how the run ends and all that is printed
/// by then.
pub fn expect_run(
    rt: &(impl Abort + AllocGlobal),
    texts: &[&str],
    world: &mut MemWorld,
    line: &str,
    printed: &[u8],
    name: &str,
) -> Result<(), NoMemory> {
    let words = words_of(rt.alloc(), texts)?;
    let outcome = run(rt.alloc(), &words, world);
    let mut out = [0; 120];
    let length = fault_line(&outcome.status, &mut out);
    assert_eq!(rt; &out[..length], line.as_bytes(), "at {name}");
    assert_eq!(rt; world.printed(), printed, "at {name}");
    Ok(())
}
