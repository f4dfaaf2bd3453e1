//! Values from published standards and from other programs.
use crate::plain::{bin, bit_of, code, column, deal_head, item_digest, key_stream, sha256, tag};
use hex::FromHex;
use std::test::Fail;

// The key that the seed of 32 zero bytes deals, and the digest of the item `b`.
const KEY: &str = "bdd219b8a08ded1aa836efcc8b770dc7";

const DIGEST: &str = "afd4613066931f73c7ce453d0dde71885ccb7b729db6a5cadd13442a2db0dc9f";

#[test]
fn hashes_the_published_message(rt: HostRuntime) -> Result<(), Fail> {
    let hash = hex::encode(rt.alloc(), sha256(b"abc"))?;
    let published = "ba7816bf8f01cfea414140de5dae2223b00361a396177a9cb410ff61f20015ad";
    assert_eq!(rt; hash.as_str(), published);
    Ok(())
}

#[test]
fn digests_an_item(rt: HostRuntime) -> Result<(), Fail> {
    let digest = item_digest(rt.alloc(), b"b")?;
    assert_eq!(rt; hex::encode(rt.alloc(), digest)?.as_str(), DIGEST);
    Ok(())
}

#[test]
fn codes_differ_by_index_and_half(rt: HostRuntime) -> Result<(), Fail> {
    let key = <[u8; 16] as FromHex>::from_hex(KEY)?;
    let digest = <[u8; 32] as FromHex>::from_hex(DIGEST)?;
    for (index, digits, want) in [
        (0, 0..16, "8f071252d13d3635"),
        (0, 64..80, "45de14916ec7611d"),
        (1, 0..16, "0421e0b7e52358c7"),
    ] {
        let code = code(rt.alloc(), &key, index, &digest)?;
        let text = hex::encode(rt.alloc(), code.as_slice())?;
        assert_eq!(rt; text.as_str().get(digits), Some(want));
    }
    Ok(())
}

#[test]
fn bins_follow_the_index(rt: HostRuntime) -> Result<(), Fail> {
    let key = <[u8; 16] as FromHex>::from_hex(KEY)?;
    let digest = <[u8; 32] as FromHex>::from_hex(DIGEST)?;
    for (index, want) in [(1, 3), (2, 3), (3, 1)] {
        assert_eq!(rt;
            bin(rt.alloc(), &key, 4, index, &digest)?,
            want,
            "at index {index}"
        );
    }
    Ok(())
}

#[test]
fn tags_are_cut_to_their_length(rt: HostRuntime) -> Result<(), Fail> {
    let key = <[u8; 16] as FromHex>::from_hex(KEY)?;
    for (tag_length, want) in [(16, "389f74640995c5b1f6ba0d27cac8f2c5"), (3, "389f74")] {
        let tag = tag(rt.alloc(), &key, tag_length, 5, &[0; 64])?;
        assert_eq!(rt; hex::encode(rt.alloc(), tag.as_slice())?.as_str(), want);
    }
    Ok(())
}

#[test]
fn streams_begin_with_the_published_block(rt: HostRuntime) -> Result<(), Fail> {
    let mut block = [0; 64];
    key_stream(&[0; 32], 0, &mut block);
    let published = "76b8e0ada0f13d90405d6ae55386bd28bdd219b8a08ded1aa836efcc8b770dc7\
        da41597c5157488d7724e03fb8d84a376a43b8f41518a11cc387b669b2ee6586";
    assert_eq!(rt; hex::encode(rt.alloc(), block)?.as_str(), published);
    Ok(())
}

#[test]
fn columns_end_with_cleared_bits(rt: HostRuntime) -> Result<(), Fail> {
    for (rows, want) in [(32, "76b8e0ad"), (30, "76b8e02d")] {
        let mut bytes = [0; 4];
        column(&[0; 32], 0, rows, &mut bytes);
        assert_eq!(rt;
            hex::encode(rt.alloc(), bytes)?.as_str(),
            want,
            "at {rows} rows"
        );
    }
    Ok(())
}

#[test]
fn deals_the_zero_seed(rt: HostRuntime) -> Result<(), Fail> {
    let head = deal_head(rt.alloc(), &[0; 32])?;
    let id = hex::encode(rt.alloc(), head.id)?;
    assert_eq!(rt; id.as_str(), "76b8e0ada0f13d90405d6ae55386bd28");
    assert_eq!(rt; hex::encode(rt.alloc(), head.key)?.as_str(), KEY);
    for (c, want) in [0, 1, 0, 1, 1, 0, 1, 1].into_iter().enumerate() {
        assert_eq!(rt; bit_of(&head.choice, c), want, "at bit {c}");
    }
    Ok(())
}
