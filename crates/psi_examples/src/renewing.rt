// Deal files of version 1 that are renewed: what the new files hold, what is refused, and a record that they judge.
use crate::runs::{DONE, ZERO_SEED as Z, expect_run, world_of};
use psi_base::{FaultKind, MemWorld};
use sha2::{Digest, Sha256};
use std::alloc::{AllocError, Global};
use std::process::Abort;
use std::test::Fail;

/// What `local` prints of both lists.
const COMMON: &[u8] = b"b\nc\n";

// The file of version 1 of the deal of a file of version 2: without the byte of the stash, and sealed anew.
fn old_file(alloc: Global, file: &[u8]) -> Result<Vec<u8>, AllocError> {
    let mut bytes = file.to_vec(alloc)?;
    if bytes.len() > 47 {
        bytes.remove(47);
    }
    if let Some(version) = bytes.get_mut(4) {
        *version = 1;
    }
    sealed(bytes)
}

// Bytes of which the last 32 are made the hash of those before.
fn sealed(mut bytes: Vec<u8>) -> Result<Vec<u8>, AllocError> {
    bytes.truncate(bytes.len().saturating_sub(32));
    let seal = Sha256::digest(&bytes);
    bytes.extend_from_slice(&seal)?;
    Ok(bytes)
}

// A world with both lists, the record of their session, its deals r and s, and the files of version 1 of these.
fn old_world(rt: &(impl Abort + AllocGlobal)) -> Result<MemWorld, Fail> {
    let mut world = world_of(rt.alloc(), Some(b"a\nb\nc\n"), Some(b"b\nc\nd\n"))?;
    let deal = ["deal", Z, "0", "16", "r", "s"];
    expect_run(rt, &deal, &mut world, DONE, b"", "deal")?;
    let local = ["local", "x", "y", Z, "0", "16", "record"];
    expect_run(rt, &local, &mut world, DONE, COMMON, "local")?;
    for (file, name) in [("r", "old r"), ("s", "old s")] {
        let old = old_file(rt.alloc(), world.file(file).unwrap_or(&[]))?;
        world.put_file(name, &old)?;
    }
    Ok(world)
}

/// The name of a file of version 1, its size, and the file of version 2 of its deal.
const OLD: &[(&str, usize, &str)] = &[("old r", 32_847, "r"), ("old s", 16_527, "s")];

#[test]
fn renewed_files_are_those_of_the_deal(rt: HostRuntime) -> Result<(), Fail> {
    let mut world = old_world(&rt)?;
    for &(name, size, file) in OLD {
        let texts = ["renew", name, "new"];
        assert_eq!(rt; world.file(name).unwrap_or(&[]).len(), size, "at {name}");
        expect_run(&rt, &texts, &mut world, DONE, COMMON, name)?;
        assert_eq!(rt;
            world.file("new").unwrap_or(&[]),
            world.file(file).unwrap_or(&[]),
            "at {name}"
        );
    }
    Ok(())
}

#[test]
fn a_record_is_judged_by_renewed_deals(rt: HostRuntime) -> Result<(), Fail> {
    let mut world = old_world(&rt)?;
    for texts in [["renew", "old r", "new r"], ["renew", "old s", "new s"]] {
        expect_run(&rt, &texts, &mut world, DONE, COMMON, "renew")?;
    }
    let audit = ["audit", "x", "y", "new r", "new s", "record"];
    let text = b"b\nc\nconsistent\nshown 2\ncollisions 0\n";
    expect_run(&rt, &audit, &mut world, DONE, text, "audit")?;
    Ok(())
}

/// The words, and the line of the refusal.
const REFUSED: &[(&[&str], &str)] = &[
    (&["renew"], "psi: bad word at 1\n"),
    (&["renew", "", "new"], "psi: bad word at 1\n"),
    (&["renew", "old r"], "psi: bad word at 2\n"),
    (&["renew", "old r", ""], "psi: bad word at 2\n"),
    (&["renew", "old r", "old r"], "psi: bad word at 2\n"),
    (&["renew", "old r", "new", "r"], "psi: bad word at 3\n"),
    (&["renew", "none", "new"], "psi: word 1: file fault\n"),
    (&["renew", "x", "new"], "psi: word 1: not a deal file\n"),
    (&["renew", "s", "new"], "psi: word 1: deal version 2\n"),
    (&["renew", "third", "new"], "psi: word 1: deal role 2\n"),
    (
        &["audit", "x", "y", "old r", "s", "record"],
        "psi: word 3: deal version 1\n",
    ),
];

#[test]
fn other_files_are_not_renewed(rt: HostRuntime) -> Result<(), Fail> {
    let mut world = old_world(&rt)?;
    let mut third = world.file("old r").unwrap_or(&[]).to_vec(rt.alloc())?;
    if let Some(role) = third.get_mut(5) {
        *role = 2;
    }
    world.put_file("third", &sealed(third)?)?;
    for &(texts, line) in REFUSED {
        expect_run(&rt, texts, &mut world, line, COMMON, line)?;
        assert_eq!(rt; world.file("new"), None, "at {line}");
    }
    Ok(())
}

#[test]
fn a_failed_write_leaves_the_old_file(rt: HostRuntime) -> Result<(), Fail> {
    let whole = old_world(&rt)?;
    let old = whole.file("old r").unwrap_or(&[]);
    let mut world = MemWorld::new(rt.alloc());
    world.put_file("old r", old)?;
    world.fail(FaultKind::File, 1)?;
    let texts = ["renew", "old r", "new"];
    let line = "psi: word 2: file fault\n";
    expect_run(&rt, &texts, &mut world, line, b"", "a write")?;
    assert_eq!(rt; world.file("old r").unwrap_or(&[]), old);
    assert_eq!(rt; world.file("new"), None);
    Ok(())
}
