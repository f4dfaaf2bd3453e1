// The words of lines are made where there is memory.
use super::pair_words;
use psi_lines::Lines;
use std::test::Fail;

#[test]
fn words_are_made(rt: HostRuntime) -> Result<(), Fail> {
    let three = Lines::read(rt.alloc(), b"a\n\nb\n")?;
    assert_eq!(rt; pair_words(rt.alloc(), &three, &[0; 16])?.rows(), 3);
    let none = Lines::read(rt.alloc(), b"")?;
    assert_eq!(rt; pair_words(rt.alloc(), &none, &[0; 16])?.rows(), 1);
    Ok(())
}
