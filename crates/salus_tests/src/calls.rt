use merkle_region::{path_of, root, verifies};
use salus_types::{Bytes, Items, NoMemory};
use std::alloc::Global;

/// Four blocks of one byte each, their number.
fn four_blocks(alloc: Global) -> Result<Vec<Bytes>, NoMemory> {
    let mut blocks = Vec::new(alloc);
    for byte in 0u8..4 {
        let mut block = Items::new(alloc);
        block.push(byte)?;
        blocks.push(block)?;
    }
    Ok(blocks)
}

// The root over these, by another program from RFC 6962's rule.
const ROOT: [u8; 32] = [
    0x9b, 0xcd, 0x51, 0x24, 0x0a, 0xf4, 0x00, 0x51, 0x68, 0xf0, 0x33, 0x12, 0x1b, 0xa8, 0x5b, 0xe5,
    0xa6, 0xed, 0x4f, 0x0e, 0x6a, 0x5f, 0xac, 0x26, 0x20, 0x66, 0x72, 0x9b, 0x8f, 0xbf, 0xde, 0xcb,
];

#[test]
fn paths_lead_to_the_root(rt: HostRuntime) {
    let blocks = four_blocks(rt.alloc()).unwrap_or(Vec::new(rt.alloc()));
    assert_eq!(rt; blocks.len(), 4);
    let top = root(2, blocks.as_slice());
    assert!(rt; top.as_bytes().as_slice() == ROOT.as_slice(), "the root");
    for i in 0u32..4 {
        match path_of(rt.alloc(), 2, blocks.as_slice(), i) {
            Ok(path) => {
                assert!(rt;
                    verifies(&top, 2, i, blocks[i as usize].as_slice(), &path),
                    "the path of {i}"
                );
                assert!(rt;
                    !verifies(&top, 2, i ^ 1, blocks[i as usize].as_slice(), &path),
                    "the path of {i} elsewhere"
                );
            }
            Err(_) => assert!(rt; false, "no memory for the path of {i}"),
        }
    }
}
