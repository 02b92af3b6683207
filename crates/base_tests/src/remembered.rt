use crate::shared::{named, query, tree};
use crate::shown::put;
use crate::tower::{ten_over, tower};
use cut_rules::{cut_permits, expand};
use std::alloc::Global;
use std::process::Abort;
use std::test::*;

/// The bytes of the tree of one query of ten variables over what is spelled so.
fn asked<R: Abort>(rt: &R, alloc: Global, key: &[u8]) -> Vec<u8> {
    let mut bytes = Vec::new(alloc);
    put(rt, &mut bytes, b"\x00\x00\x01");
    let query = ten_over(rt, alloc, key);
    put(rt, &mut bytes, &query);
    drop(query);
    put(rt, &mut bytes, b"\x00\x00");
    bytes
}

/// How often the base is asked for views, and how often for permits, while bob's tree of a query of ten
/// variables over what has this key is cut.
fn asked_in_cutting<R: Abort>(rt: &R, alloc: Global, key: &[u8]) -> (u32, u32) {
    let mut tower = tower(rt, alloc);
    let bob = named(rt, alloc, b"bob");
    let bytes = asked(rt, alloc, key);
    let tree = tree(rt, alloc, &bytes);
    drop(bytes);
    let is_cut = cut_permits(alloc, tree, &bob, &mut tower).is_ok();
    drop(bob);
    assert!(rt; is_cut);
    (tower.views, tower.permits)
}

/// How often the base is asked for views while the views are put into such a query.
fn asked_in_expanding<R: Abort>(rt: &R, alloc: Global, key: &[u8]) -> u32 {
    let mut tower = tower(rt, alloc);
    let bytes = ten_over(rt, alloc, key);
    let query = query(rt, alloc, &bytes);
    drop(bytes);
    let is_made = expand(alloc, query, &mut tower).is_ok();
    assert!(rt; is_made);
    tower.views
}

#[test]
fn each_view_is_walked_once_for_a_tree(rt: HostRuntime) {
    assert!(rt; asked_in_cutting(&rt, rt.alloc(), b"\x03ann\x01p") == (16, 0));
}

#[test]
fn permits_are_asked_for_once_for_a_tree(rt: HostRuntime) {
    assert!(rt; asked_in_cutting(&rt, rt.alloc(), b"\x03ann\x05parts") == (10, 1));
}

#[test]
fn views_are_walked_once_where_their_variables_count(rt: HostRuntime) {
    assert!(rt; asked_in_expanding(&rt, rt.alloc(), b"\x03ann\x01p") == 32);
}
