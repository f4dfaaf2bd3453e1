//! Words and matrices that were worked out by hand.
use crate::{BadColumn, Columns, Rows, Word512, flip_back_plain, flip_plain};
use psi_base::NoMemory;

#[test]
fn one_bit_stands_alone(rt: HostRuntime) {
    let mut bytes = [0; 64];
    bytes[37] = 0x20;
    let word = Word512::from_bytes(&bytes);
    for c in 0..512 {
        assert_eq!(rt; word.bit(c), c == 301, "at bit {c}");
    }
}

#[test]
fn bad_columns_are_refused(rt: HostRuntime) -> Result<(), NoMemory> {
    let mut columns = Columns::zero(rt.alloc(), 17)?;
    for (bytes, want) in [
        ([1, 2].as_slice(), Err(BadColumn::Length { found: 2 })),
        (&[1, 2, 1, 0], Err(BadColumn::Length { found: 4 })),
        (&[1, 2, 3], Err(BadColumn::Padding { byte: 3 })),
        (&[1, 2, 1], Ok(())),
    ] {
        assert_eq!(rt; columns.set_column(511, bytes), want);
    }
    assert_eq!(rt; columns.column(511), [1, 2, 1].as_slice());
    let mut other = Columns::zero(rt.alloc(), 17)?;
    assert_eq!(rt; other.set_column(0, &[3, 3, 1]), Ok(()));
    columns.xor_column(511, other.column(0));
    assert_eq!(rt; columns.column(511), [2, 1, 0].as_slice());
    columns.column_mut(0)[1] = 7;
    assert_eq!(rt; columns.column(0), [0, 7, 0].as_slice());
    assert_eq!(rt; columns.column(1), [0, 0, 0].as_slice());
    Ok(())
}

#[test]
fn one_bit_turns_into_its_column(rt: HostRuntime) -> Result<(), NoMemory> {
    for (rows, at, byte) in [
        (1, 0, 1),
        (63, 62, 0x40),
        (64, 63, 0x80),
        (65, 64, 1),
        (70, 9, 2),
    ] {
        let mut words = Rows::with_rows(rt.alloc(), rows)?;
        let mut bytes = [0; 64];
        bytes[37] = 0x20;
        *words.row_mut(at) = Word512::from_bytes(&bytes);
        let mut columns = Columns::zero(rt.alloc(), rows)?;
        flip_back_plain(&words, &mut columns);
        assert_eq!(rt;
            columns.column(301)[(at / 8) as usize],
            byte,
            "at {rows} rows"
        );
        assert_eq!(rt; columns.column(300)[(at / 8) as usize], 0, "at {rows} rows");
    }
    Ok(())
}

#[test]
fn flip_back_of_flip_gives_the_columns(rt: HostRuntime) -> Result<(), NoMemory> {
    for (rows, bytes) in [
        (1, [1].as_slice()),
        (63, &[0xa5, 0, 0xff, 1, 0x80, 7, 0x3c, 0x5a]),
        (65, &[0xa5, 0, 0xff, 1, 0x80, 7, 0x3c, 0xda, 1]),
    ] {
        let mut columns = Columns::zero(rt.alloc(), rows)?;
        assert_eq!(rt; columns.set_column(0, bytes), Ok(()), "at {rows} rows");
        assert_eq!(rt; columns.set_column(511, bytes), Ok(()), "at {rows} rows");
        let mut words = Rows::with_rows(rt.alloc(), rows)?;
        flip_plain(&columns, &mut words);
        let mut again = Columns::zero(rt.alloc(), rows)?;
        flip_back_plain(&words, &mut again);
        for c in [0, 1, 510, 511] {
            assert_eq!(rt;
                again.column(c),
                columns.column(c),
                "at {rows} rows, column {c}"
            );
        }
    }
    Ok(())
}
