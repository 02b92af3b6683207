//! Views that stand on views, each of which names the one below ten times.

use crate::shared::{is_laid, laid, query};
use crate::shown::put;
use plain_base::DbPlain;
use std::alloc::Global;
use std::process::Abort;
use std::test::*;
use view_sizes::{expanded_variables, has_high_level, listed_expanded_variables, query_size};

/// The keys of views, the lowest first: one more than there are levels.
const KEYS: [&[u8]; 17] = [
    b"\x03ann\x05first",
    b"\x03ann\x06second",
    b"\x03ann\x05third",
    b"\x03ann\x06fourth",
    b"\x03ann\x05fifth",
    b"\x03ann\x05sixth",
    b"\x03ann\x07seventh",
    b"\x03ann\x06eighth",
    b"\x03ann\x05ninth",
    b"\x03ann\x05tenth",
    b"\x03ann\x08eleventh",
    b"\x03ann\x07twelfth",
    b"\x03ann\x0athirteenth",
    b"\x03ann\x0afourteenth",
    b"\x03ann\x09fifteenth",
    b"\x03ann\x09sixteenth",
    b"\x03ann\x0bseventeenth",
];

const FIFTEENTH: &[u8] = b"\x03ann\x09fifteenth";

const SIXTEENTH: &[u8] = b"\x03ann\x09sixteenth";

/// `parts` is made, with one number `pnum` of two bytes.
const PARTS: &[u8] = b"\x01\x03ann\x05parts\x00\x00\x01\x04pnum\x00\x01\x00\x00\x00\x00\x00\x00";

/// What the lowest view is of: the kind of the number of each view, and the lowest query.
#[derive(Clone, Copy)]
struct Lowest<'a> {
    kind: &'a [u8],
    query: &'a [u8],
}

/// The number 1, without variables.
const NUMBER: Lowest = Lowest {
    kind: b"\x01",
    query: b"\x00\x00\x00\x01\x04pnum\x01\x00\x00\x00\x00\x00\x00\x00\x00\x01\x00",
};

/// The numbers of `parts`.
const OF_PARTS: Lowest = Lowest {
    kind: b"\x00\x01",
    query: b"\x00\x01\x03ann\x05parts\x00\x01\x04pnum\x00\x01\x02\x00\x00\x00",
};

/// What is said of a tower of such views.
#[derive(Clone, Copy, PartialEq, Eq)]
struct Tower {
    /// How many views are applied, up to the first that isn't.
    laid: usize,
    /// Whether a view over the fifteenth would have a level that is too high, and one over the
    /// sixteenth.
    is_high: (bool, bool),
    /// The variables that a query over the sixteenth uses once the views are expanded, and those that
    /// it lists.
    variables: (u64, u64),
    /// The size of a query over the sixteenth.
    size: u64,
}

/// Puts the query of the number of the last of ten variables over what has this key, where it is 1.
fn put_query<R: Abort>(rt: &R, bytes: &mut Vec<u8>, key: &[u8], kind: &[u8]) {
    put(rt, bytes, b"\x00\x0a");
    for _ in 0..10u8 {
        put(rt, bytes, key);
    }
    put(rt, bytes, b"\x00\x01\x04pnum");
    put(rt, bytes, kind);
    put(rt, bytes, b"\x02\x09\x00");
    put(
        rt,
        bytes,
        b"\x01\x00\x02\x09\x00\x00\x00\x00\x00\x00\x00\x00\x00\x01",
    );
}

/// The bytes of the view with this key over the one below it; the lowest has none.
fn view<R: Abort>(
    rt: &R,
    alloc: Global,
    lowest: Lowest,
    key: &[u8],
    below: Option<&[u8]>,
) -> Vec<u8> {
    let mut bytes = Vec::new(alloc);
    put(rt, &mut bytes, b"\x05");
    put(rt, &mut bytes, key);
    put(rt, &mut bytes, b"\x03\x00\x01\x04pnum");
    put(rt, &mut bytes, lowest.kind);
    put(rt, &mut bytes, b"\x00\x00");
    match below {
        Some(below) => put_query(rt, &mut bytes, below, lowest.kind),
        None => put(rt, &mut bytes, lowest.query),
    }
    bytes
}

/// Applies the views; says how many are applied, up to the first that isn't.
fn apply_views<R: Abort>(rt: &R, alloc: Global, base: &mut DbPlain, lowest: Lowest) -> usize {
    let mut count = 0usize;
    let mut below = None;
    for key in KEYS {
        let bytes = view(rt, alloc, lowest, key, below);
        let is_laid = is_laid(rt, alloc, base, &bytes);
        drop(bytes);
        if !is_laid {
            break;
        }
        count = count.saturating_add(1);
        below = Some(key);
    }
    count
}

/// Whether a view over what has this key would have a level that is too high; the variables that a query
/// over it uses, those that it lists, and its size.
fn counted<R: Abort>(
    rt: &R,
    alloc: Global,
    base: &mut DbPlain,
    key: &[u8],
    kind: &[u8],
) -> (bool, u64, u64, u64) {
    let mut bytes = Vec::new(alloc);
    put_query(rt, &mut bytes, key, kind);
    let query = query(rt, alloc, &bytes);
    drop(bytes);
    let high = has_high_level(alloc, base, &query).expect(rt, "an answer");
    let used = expanded_variables(alloc, base, &query).expect(rt, "an answer");
    let listed = listed_expanded_variables(alloc, base, &query).expect(rt, "an answer");
    let size = query_size(alloc, base, &query).expect(rt, "an answer");
    drop(query);
    (high, used, listed, size)
}

/// Applies the views in a new database, and asks for what is said of them.
fn measured<R: Abort>(rt: &R, alloc: Global, lowest: Lowest) -> Tower {
    let mut base = laid(rt, alloc, &[PARTS]);
    let laid = apply_views(rt, alloc, &mut base, lowest);
    let (low, _, _, _) = counted(rt, alloc, &mut base, FIFTEENTH, lowest.kind);
    let (high, used, listed, size) = counted(rt, alloc, &mut base, SIXTEENTH, lowest.kind);
    drop(base);
    Tower {
        laid,
        is_high: (low, high),
        variables: (used, listed),
        size,
    }
}

/// By each way through variables these would be walked 10^16 times. Each level has a qualification of
/// size 3, and the target has the size 1.
#[test]
fn what_is_named_by_many_ways_is_looked_through_once(rt: HostRuntime) {
    let alloc = rt.alloc();
    let of_number = Tower {
        laid: 16,
        is_high: (false, true),
        variables: (0, 0),
        size: 49,
    };
    let of_parts = Tower {
        laid: 16,
        is_high: (false, true),
        variables: (1, 10),
        size: 49,
    };
    assert!(rt; measured(&rt, alloc, NUMBER) == of_number);
    assert!(rt; measured(&rt, alloc, OF_PARTS) == of_parts);
}
