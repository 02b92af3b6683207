use crate::shared::{laid, named, tree};
use calculus::{Chars, Checked, CopyCol, CopyForm, List, RelKey, Utility};
use plain_base::DbPlain;
use std::alloc::Global;
use std::process::Abort;
use std::test::*;
use tree_check::fit_tree;

/// `parts` is made with two numbers of two bytes, `pnum` and `qoh`, and a text of ten, `pname`; and `numbers`,
/// a view of its numbers.
const LAID: [&[u8]; 2] = [
    b"\x01\x03ann\x05parts\x00\x00\x03\x04pnum\x00\x01\x03qoh\x00\x01\x05pname\x00\x03\x0a\x00\x00\x00\x00\x00\x00",
    b"\x05\x03ann\x07numbers\x03\x00\x01\x04pnum\x00\x01\x00\x00\x00\x01\x03ann\x05parts\x00\x01\x04pnum\x00\x01\x02\x00\x00\x00",
];

/// A tree, and whether it is fit for ann.
type Case<'a> = (&'a [u8], bool);

/// Whether the tree is fit for ann.
fn is_fit<R: Abort>(rt: &R, alloc: Global, base: &mut DbPlain, tree: Checked) -> bool {
    let user = named(rt, alloc, b"ann");
    let fit = fit_tree(alloc, &tree, &user, base);
    drop(user);
    drop(tree);
    fit.expect(rt, "an answer")
}

/// How many of these trees are fit as is said beside each, up to the first that isn't.
fn as_said<R: Abort>(rt: &R, alloc: Global, trees: &[Case]) -> usize {
    let mut base = laid(rt, alloc, &LAID);
    let mut right = 0usize;
    for (bytes, fit) in trees {
        if is_fit(rt, alloc, &mut base, tree(rt, alloc, *bytes)) != *fit {
            break;
        }
        right = right.saturating_add(1);
    }
    drop(base);
    right
}

/// Queries of one target, sorted by a column.
const ASKED: [Case; 8] = [
    // Of an attribute of `parts`.
    (
        b"\x00\x00\x01\x00\x01\x03ann\x05parts\x00\x01\x04pnum\x00\x01\x02\x00\x01\x00\x00\x01\x00\x00\x00",
        true,
    ),
    // The number of the parts, over a catalogue.
    (
        b"\x00\x00\x01\x00\x01\x03ann\x08relation\x00\x01\x04pnum\x01\x07\x00\x00\x00\x00\x03ann\x05parts\x02\x00\x00\x00\x00\x00\x00\x00\x00\x00\x01\x00\x00\x00",
        true,
    ),
    // Over what isn't there.
    (
        b"\x00\x00\x01\x00\x01\x03ann\x09suppliers\x00\x01\x04pnum\x01\x07\x00\x00\x00\x00\x03ann\x05parts\x02\x00\x00\x00\x00\x00\x00\x00\x00\x00\x01\x00\x00\x00",
        false,
    ),
    // Over a view.
    (
        b"\x00\x00\x01\x00\x01\x03ann\x07numbers\x00\x01\x04pnum\x00\x01\x02\x00\x00\x00\x00\x01\x00\x00\x00",
        false,
    ),
    // Of a fourth attribute.
    (
        b"\x00\x00\x01\x00\x01\x03ann\x05parts\x00\x01\x04pnum\x00\x01\x02\x00\x03\x00\x00\x01\x00\x00\x00",
        false,
    ),
    // Of a number of two bytes as one of 64 bits.
    (
        b"\x00\x00\x01\x00\x01\x03ann\x05parts\x00\x01\x04pnum\x01\x02\x00\x01\x00\x00\x01\x00\x00\x00",
        false,
    ),
    // Sorted by a second column.
    (
        b"\x00\x00\x01\x00\x01\x03ann\x05parts\x00\x01\x04pnum\x00\x01\x02\x00\x01\x00\x00\x01\x00\x01\x00",
        false,
    ),
    // Of 51 variables.
    (
        b"\x00\x00\x01\x003\
        \x03ann\x05parts\x03ann\x05parts\x03ann\x05parts\x03ann\x05parts\x03ann\x05parts\
        \x03ann\x05parts\x03ann\x05parts\x03ann\x05parts\x03ann\x05parts\x03ann\x05parts\
        \x03ann\x05parts\x03ann\x05parts\x03ann\x05parts\x03ann\x05parts\x03ann\x05parts\
        \x03ann\x05parts\x03ann\x05parts\x03ann\x05parts\x03ann\x05parts\x03ann\x05parts\
        \x03ann\x05parts\x03ann\x05parts\x03ann\x05parts\x03ann\x05parts\x03ann\x05parts\
        \x03ann\x05parts\x03ann\x05parts\x03ann\x05parts\x03ann\x05parts\x03ann\x05parts\
        \x03ann\x05parts\x03ann\x05parts\x03ann\x05parts\x03ann\x05parts\x03ann\x05parts\
        \x03ann\x05parts\x03ann\x05parts\x03ann\x05parts\x03ann\x05parts\x03ann\x05parts\
        \x03ann\x05parts\x03ann\x05parts\x03ann\x05parts\x03ann\x05parts\x03ann\x05parts\
        \x03ann\x05parts\x03ann\x05parts\x03ann\x05parts\x03ann\x05parts\x03ann\x05parts\
        \x03ann\x05parts\
        \x00\x01\x04pnum\x00\x01\x02\x00\x00\x00\x00\x01\x00\x00\x00",
        false,
    ),
];

#[test]
fn a_query_reads_what_is_kept(rt: HostRuntime) {
    assert!(rt; as_said(&rt, rt.alloc(), &ASKED) == ASKED.len());
}

/// Queries of an aggregate.
const FOLDED: [Case; 7] = [
    // The number of the parts.
    (
        b"\x00\x00\x01\x00\x01\x03ann\x05parts\x00\x01\x04pnum\x01\x07\x00\x00\x00\x00\x03ann\x05parts\x02\x00\x00\x00\x00\x00\x00\x00\x00\x00\x01\x00\x00\x00",
        true,
    ),
    // In the second slot.
    (
        b"\x00\x00\x01\x00\x01\x03ann\x05parts\x00\x01\x04pnum\x01\x07\x00\x01\x00\x00\x03ann\x05parts\x02\x00\x00\x00\x00\x00\x00\x00\x00\x00\x01\x00\x00\x00",
        false,
    ),
    // Of a view.
    (
        b"\x00\x00\x01\x00\x01\x03ann\x05parts\x00\x01\x04pnum\x01\x07\x00\x00\x00\x00\x03ann\x07numbers\x02\x00\x00\x00\x00\x00\x00\x00\x00\x00\x01\x00\x00\x00",
        false,
    ),
    // The sum of a text.
    (
        b"\x00\x00\x01\x00\x01\x03ann\x05parts\x00\x01\x04pnum\x01\x07\x00\x00\x02\x00\x03ann\x05parts\x01\x04bolt\x00\x00\x00\x00\x00\x00\x00\x01\x00\x00\x00",
        false,
    ),
    // By numbers, which no term around chooses.
    (
        b"\x00\x00\x01\x00\x01\x03ann\x05parts\x00\x01\x04pnum\x01\x07\x00\x00\x00\x00\x03ann\x05parts\x02\x00\x00\x00\x01\x02\x00\x00\x00\x00\x00\x00\x00\x01\x00\x00\x00",
        false,
    ),
    // Of the rows of a query.
    (
        b"\x00\x00\x01\x00\x01\x03ann\x05parts\x00\x01\x04pnum\x01\x07\x00\x00\x00\x01\x00\x01\x03ann\x05parts\x00\x01\x04pnum\x00\x01\x02\x00\x00\x00\x02\x00\x00\x00\x00\x00\x00\x00\x00\x00\x01\x00\x00\x00",
        true,
    ),
    // Of a query of two variables.
    (
        b"\x00\x00\x01\x00\x01\x03ann\x05parts\x00\x01\x04pnum\x01\x07\x00\x00\x00\x01\x00\x02\x03ann\x05parts\x03ann\x05parts\x00\x01\x04pnum\x00\x01\x02\x00\x00\x00\x02\x00\x00\x00\x00\x00\x00\x00\x00\x00\x01\x00\x00\x00",
        false,
    ),
];

#[test]
fn an_aggregate_has_a_source_a_slot_and_links(rt: HostRuntime) {
    assert!(rt; as_said(&rt, rt.alloc(), &FOLDED) == FOLDED.len());
}

/// Updates whose new rows must meet that a value is 1, and whose targets are the numbers of the parts.
const CHANGED: [Case; 11] = [
    // An append of the second attribute.
    (
        b"\x01\x00\x03ann\x05parts\xff\x00\x01\x01\x00\x01\x03ann\x05parts\x00\x01\x04pnum\x00\x01\x02\x00\x00\x00\x00\x00\x01\x00\x02\x00\x00\x00\x00\x00\x00\x00\x00\x00\x00\x01",
        true,
    ),
    // With a variable of old rows.
    (
        b"\x01\x00\x03ann\x05parts\x00\x00\x01\x01\x00\x01\x03ann\x05parts\x00\x01\x04pnum\x00\x01\x02\x00\x00\x00\x00\x00\x01\x00\x02\x00\x00\x00\x00\x00\x00\x00\x00\x00\x00\x01",
        false,
    ),
    // Of the third attribute, which is a text.
    (
        b"\x01\x00\x03ann\x05parts\xff\x00\x01\x02\x00\x01\x03ann\x05parts\x00\x01\x04pnum\x00\x01\x02\x00\x00\x00\x00\x00\x01\x00\x02\x00\x00\x00\x00\x00\x00\x00\x00\x00\x00\x01",
        false,
    ),
    // Of a fourth attribute.
    (
        b"\x01\x00\x03ann\x05parts\xff\x00\x01\x03\x00\x01\x03ann\x05parts\x00\x01\x04pnum\x00\x01\x02\x00\x00\x00\x00\x00\x01\x00\x02\x00\x00\x00\x00\x00\x00\x00\x00\x00\x00\x01",
        false,
    ),
    // Of two attributes.
    (
        b"\x01\x00\x03ann\x05parts\xff\x00\x02\x00\x01\x00\x01\x03ann\x05parts\x00\x01\x04pnum\x00\x01\x02\x00\x00\x00\x00\x00\x01\x00\x02\x00\x00\x00\x00\x00\x00\x00\x00\x00\x00\x01",
        false,
    ),
    // Where a text must be 1.
    (
        b"\x01\x00\x03ann\x05parts\xff\x00\x01\x01\x00\x01\x03ann\x05parts\x00\x01\x04pnum\x00\x01\x02\x00\x00\x00\x00\x00\x01\x00\x01\x04bolt\x00\x00\x00\x00\x00\x00\x00\x00\x01",
        false,
    ),
    // Of a view.
    (
        b"\x01\x00\x03ann\x07numbers\xff\x00\x01\x00\x00\x01\x03ann\x05parts\x00\x01\x04pnum\x00\x01\x02\x00\x00\x00\x00\x00\x01\x00\x02\x00\x00\x00\x00\x00\x00\x00\x00\x00\x00\x01",
        false,
    ),
    // A replace of the second attribute.
    (
        b"\x01\x01\x03ann\x05parts\x00\x00\x01\x01\x00\x01\x03ann\x05parts\x00\x01\x04pnum\x00\x01\x02\x00\x00\x00\x00\x00\x01\x00\x02\x00\x00\x00\x00\x00\x00\x00\x00\x00\x00\x01",
        true,
    ),
    // A delete of a second variable.
    (
        b"\x01\x02\x03ann\x05parts\x01\x00\x01\x01\x00\x01\x03ann\x05parts\x00\x01\x04pnum\x00\x01\x02\x00\x00\x00\x00\x00\x01\x00\x02\x00\x00\x00\x00\x00\x00\x00\x00\x00\x00\x01",
        false,
    ),
    // An into of `copies`.
    (
        b"\x01\x03\x03ann\x06copies\xff\x00\x01\x00\x00\x01\x03ann\x05parts\x00\x01\x04pnum\x00\x01\x02\x00\x00\x00\x00\x00\x01\x00\x02\x00\x00\x00\x00\x00\x00\x00\x00\x00\x00\x01",
        true,
    ),
    // Of `parts`, which is there.
    (
        b"\x01\x03\x03ann\x05parts\xff\x00\x01\x00\x00\x01\x03ann\x05parts\x00\x01\x04pnum\x00\x01\x02\x00\x00\x00\x00\x00\x01\x00\x02\x00\x00\x00\x00\x00\x00\x00\x00\x00\x00\x01",
        false,
    ),
];

#[test]
fn an_update_has_a_relation_places_and_checks(rt: HostRuntime) {
    assert!(rt; as_said(&rt, rt.alloc(), &CHANGED) == CHANGED.len());
}

/// What is made, and what goes.
const MADE: [Case; 10] = [
    // A relation `suppliers`.
    (
        b"\x02\x00\x03ann\x09suppliers\x00\x01\x04snum\x00\x01",
        true,
    ),
    // A relation `parts`.
    (b"\x02\x00\x03ann\x05parts\x00\x01\x04snum\x00\x01", false),
    // One whose attributes have one name.
    (
        b"\x02\x00\x03ann\x09suppliers\x00\x02\x04snum\x00\x01\x04snum\x00\x01",
        false,
    ),
    // `parts` goes, and `numbers`.
    (b"\x02\x01\x00\x02\x03ann\x05parts\x03ann\x07numbers", true),
    // `parts` goes twice.
    (b"\x02\x01\x00\x02\x03ann\x05parts\x03ann\x05parts", false),
    // `suppliers` goes, which isn't there.
    (b"\x02\x01\x00\x01\x03ann\x09suppliers", false),
    // A view `quantities` of a view.
    (
        b"\x02\x05\x03ann\x0aquantities\x00\x01\x03ann\x07numbers\x00\x01\x04pnum\x00\x01\x02\x00\x00\x00",
        true,
    ),
    // A view `parts`.
    (
        b"\x02\x05\x03ann\x05parts\x00\x01\x03ann\x07numbers\x00\x01\x04pnum\x00\x01\x02\x00\x00\x00",
        false,
    ),
    // A view of what isn't there.
    (
        b"\x02\x05\x03ann\x0aquantities\x00\x01\x03ann\x09suppliers\x00\x01\x04pnum\x00\x01\x02\x00\x00\x00",
        false,
    ),
    // A view of an aggregate.
    (
        b"\x02\x05\x03ann\x0aquantities\x00\x01\x03ann\x05parts\x00\x01\x04pnum\x00\x01\x07\x00\x00\x00\x00\x03ann\x05parts\x02\x00\x00\x00\x00\x00\x00\x00\x00",
        false,
    ),
];

#[test]
fn what_is_made_is_new_and_what_goes_is_there(rt: HostRuntime) {
    assert!(rt; as_said(&rt, rt.alloc(), &MADE) == MADE.len());
}

/// Structures, indexes and copies.
const KEYED: [Case; 13] = [
    // `parts` as a hash by two attributes.
    (b"\x02\x02\x03ann\x05parts\x01\x00\x02\x00\x01", true),
    // As a view.
    (b"\x02\x02\x03ann\x05parts\x03\x00\x01\x00", false),
    // As a hash by a fourth attribute.
    (b"\x02\x02\x03ann\x05parts\x01\x00\x01\x03", false),
    // As a hash by one attribute twice.
    (b"\x02\x02\x03ann\x05parts\x01\x00\x02\x00\x00", false),
    // What isn't there as a heap.
    (b"\x02\x02\x03ann\x09suppliers\x00\x00\x00", false),
    // An index `by_number`.
    (b"\x02\x03\x03ann\x05parts\x09by_number\x00\x01\x00", true),
    // Without keys.
    (b"\x02\x03\x03ann\x05parts\x09by_number\x00\x00", false),
    // An index `parts`.
    (b"\x02\x03\x03ann\x05parts\x05parts\x00\x01\x00", false),
    // A copy of a number of two bytes, and of one up to a newline.
    (
        b"\x02\x04\x03ann\x05parts\x00\x02\x01\x00\x02\x00\x02\x0a\x01\x09parts.txt",
        true,
    ),
    // Without columns.
    (b"\x02\x04\x03ann\x05parts\x00\x00\x01\x09parts.txt", false),
    // Of a text as a number.
    (
        b"\x02\x04\x03ann\x05parts\x00\x01\x02\x00\x02\x01\x09parts.txt",
        false,
    ),
    // Of a fourth attribute.
    (
        b"\x02\x04\x03ann\x05parts\x00\x01\x03\x01\x03\x01\x09parts.txt",
        false,
    ),
    // Of one attribute twice.
    (
        b"\x02\x04\x03ann\x05parts\x00\x02\x01\x00\x02\x01\x00\x02\x01\x09parts.txt",
        false,
    ),
];

/// A copy of the second attribute of `parts` as a number of three bytes, which no bytes spell.
fn copy_of_three_bytes<R: Abort>(rt: &R, alloc: Global) -> Checked {
    let column = CopyCol {
        attr: 1,
        form: CopyForm::Bin(3),
    };
    let file = Chars::of(alloc, b"parts.txt").expect(rt, "memory");
    Checked::Utility(Utility::Copy {
        rel: RelKey {
            owner: named(rt, alloc, b"ann"),
            name: named(rt, alloc, b"parts"),
        },
        columns: List::of(Vec::from_slice(alloc, &[column]).expect(rt, "memory")),
        from: true,
        file: file.expect(rt, "a name of a file"),
    })
}

/// Whether that is fit.
fn three_bytes_fit<R: Abort>(rt: &R, alloc: Global) -> bool {
    let mut base = laid(rt, alloc, &LAID);
    let fit = is_fit(rt, alloc, &mut base, copy_of_three_bytes(rt, alloc));
    drop(base);
    fit
}

#[test]
fn keys_and_columns_are_places(rt: HostRuntime) {
    assert!(rt; as_said(&rt, rt.alloc(), &KEYED) == KEYED.len());
    assert!(rt; !three_bytes_fit(&rt, rt.alloc()));
}

/// Permits and rules, where a value is 1.
const GRANTED: [Case; 11] = [
    // All rights to the second attribute.
    (
        b"\x02\x06\x03ann\x05parts\x00\x00\x00\x00\x0f\x00\x01\x01\x00\x01\x00\x02\x00\x00\x00\x00\x00\x00\x00\x00\x00\x00\x01",
        true,
    ),
    // Rights that there are none of.
    (
        b"\x02\x06\x03ann\x05parts\x00\x00\x00\x00\x10\x00\x01\x01\x00\x01\x00\x02\x00\x00\x00\x00\x00\x00\x00\x00\x00\x00\x01",
        false,
    ),
    // To a fourth attribute.
    (
        b"\x02\x06\x03ann\x05parts\x00\x00\x00\x00\x0f\x00\x01\x03\x00\x01\x00\x02\x00\x00\x00\x00\x00\x00\x00\x00\x00\x00\x01",
        false,
    ),
    // Where a text is 1.
    (
        b"\x02\x06\x03ann\x05parts\x00\x00\x00\x00\x0f\x00\x01\x01\x00\x01\x00\x01\x04bolt\x00\x00\x00\x00\x00\x00\x00\x00\x01",
        false,
    ),
    // A rule of `parts`.
    (
        b"\x02\x07\x03ann\x05parts\x00\x00\x00\x00\x01\x00\x02\x00\x00\x00\x00\x00\x00\x00\x00\x00\x00\x01",
        true,
    ),
    // Of what isn't there.
    (
        b"\x02\x07\x03ann\x09suppliers\x00\x00\x00\x00\x01\x00\x02\x00\x00\x00\x00\x00\x00\x00\x00\x00\x00\x01",
        false,
    ),
    // Of an aggregate.
    (
        b"\x02\x07\x03ann\x05parts\x00\x00\x00\x00\x01\x00\x07\x00\x00\x00\x00\x03ann\x05parts\x02\x00\x00\x00\x00\x00\x00\x00\x00\x00\x00\x00\x00\x00\x00\x00\x01",
        false,
    ),
    // Permits of `parts` go.
    (b"\x02\x08\x03ann\x05parts\x00\x00", true),
    // Of what isn't there.
    (b"\x02\x08\x03ann\x09suppliers\x00\x00", false),
    // Rules of `numbers` go.
    (b"\x02\x09\x03ann\x07numbers\x00\x00", true),
    // Of what isn't there.
    (b"\x02\x09\x03ann\x09suppliers\x00\x00", false),
];

#[test]
fn permits_and_rules_speak_of_what_is_there(rt: HostRuntime) {
    assert!(rt; as_said(&rt, rt.alloc(), &GRANTED) == GRANTED.len());
}
