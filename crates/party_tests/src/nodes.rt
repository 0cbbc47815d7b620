//! A node of a volume of two regions of two blocks of one byte, two replicas each: it is loaded from a file, and handed the
//! messages of the rows one after the other. A dot ends what it answers to each.

use crate::node_rows::{
    answers_from_the_view, answers_without_a_view, file_of_no_node, file_without_a_view,
    first_answers, first_file, first_rows, folding_answers, folding_rows, rows_from_the_view,
    rows_without_a_view,
};
use crate::words::{bytes, put_outs, sender_of};
use disk_model::MemDisk;
use replica_node::{NodeError, ReplicaNode};
use salus_types::{Geometry, NoMemory, NodeName, Outs};
use std::alloc::Global;
use std::test::*;

/// What it answers, and a dot; `silent` after an error.
fn put_answer(
    alloc: Global,
    text: &mut Vec<u8>,
    answer: Result<Outs, NodeError>,
) -> Result<(), NoMemory> {
    match answer {
        Ok(outs) => put_outs(alloc, text, outs.as_slice())?,
        Err(_) => text.extend_from_slice(b"silent\n")?,
    }
    text.extend_from_slice(b".\n")?;
    Ok(())
}

/// Hands over what a row says: `tick`, `fail` for the next call of its disk, or a sender and bytes.
fn hand(
    alloc: Global,
    node: &mut ReplicaNode<MemDisk>,
    row: &str,
    text: &mut Vec<u8>,
) -> Result<(), NoMemory> {
    let mut words = row.split_whitespace();
    let word = words.next();
    if word == Some("tick") {
        return put_answer(alloc, text, node.tick());
    }
    if word == Some("fail") {
        return node.fail_at(1);
    }
    match sender_of(word.unwrap_or("")) {
        Some(from) => put_answer(
            alloc,
            text,
            node.handle(from, bytes(alloc, &mut words).as_slice()),
        ),
        None => {
            text.push(b'?')?;
            Ok(())
        }
    }
}

/// All that a node answers to the rows.
fn answers_of(
    alloc: Global,
    node: &mut ReplicaNode<MemDisk>,
    rows: &str,
) -> Result<Vec<u8>, NoMemory> {
    let mut text = Vec::new(alloc);
    'rows: for row in rows.lines() {
        hand(alloc, node, row, &mut text)?;
    }
    Ok(text)
}

/// Whether a replica of region 0 over the file answers so.
fn answers(
    alloc: Global,
    replica: u8,
    file: &str,
    rows: &str,
    expected: &str,
) -> Result<bool, NoMemory> {
    let Ok(geometry) = Geometry::new(1, 1, 1, 2) else {
        return Ok(false);
    };
    let disk = MemDisk::new(alloc, hex::decode(alloc, file).unwrap_or(Vec::new(alloc)));
    match ReplicaNode::load(alloc, NodeName { region: 0, replica }, geometry, disk) {
        Ok(mut node) => {
            Ok(answers_of(alloc, &mut node, rows)?.as_slice() == expected.as_bytes())
        }
        Err(_) => Ok(false),
    }
}

#[test]
fn nodes_by_hand(rt: HostRuntime) -> Result<(), Fail> {
    let alloc = rt.alloc();
    for (replica, file, rows, expected) in [
        // early parts, asks that are kept and due, votes in any order, who is listened to
        (0, first_file(), first_rows(), first_answers()),
        // claims in their order, a fold at the eighth part below the front, bases with blocks and without, a switch
        (0, first_file(), folding_rows(), folding_answers()),
        // files that no node wrote
        (
            1,
            file_of_no_node(),
            rows_from_the_view(),
            answers_from_the_view(),
        ),
        (
            1,
            file_without_a_view(),
            rows_without_a_view(),
            answers_without_a_view(),
        ),
    ] {
        assert!(rt; answers(alloc, replica, file, rows, expected)?);
    }
    Ok(())
}
