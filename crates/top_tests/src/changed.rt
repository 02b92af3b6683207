//! What several users change of one database by its permits: small cases, found among random ones.

use crate::sessions::{Turn, all_print};
use std::test::*;

/// An append names attributes that a permit for it lists; the others are 0.
const APPENDED: [Turn; 4] = [
    (
        b"ann",
        b"create q (b = i2, name = i1)\n\
        range of y is q\n\
        define permit all on y (b) to all\n",
        b"done\n\
        done\n",
    ),
    (
        b"cal",
        b"append to q (name = 2)\n",
        b"refused 23 line 1: no permit\n",
    ),
    (b"bob", b"append to q (b = 1)\n", b"done\n"),
    (
        b"ann",
        b"range of z is q\n\
        retrieve (z.all)\n",
        b"|b     |name|\n\
        |------|----|\n\
        |     1|   0|\n\
        |------|----|\n",
    ),
];

/// A new row of which the permit's qualification doesn't hold isn't put.
const FAILING: [Turn; 4] = [
    (
        b"ann",
        b"create dept (b = i4)\n\
        range of x is dept\n\
        define permit append on x to all where x.b > 2\n",
        b"done\n\
        done\n",
    ),
    (b"bob", b"append to dept (b = 10)\n", b"done\n"),
    (b"cal", b"append to dept (b = 2)\n", b"done\n"),
    (
        b"ann",
        b"range of z is dept\n\
        retrieve (z.all)\n",
        b"|b          |\n\
        |-----------|\n\
        |         10|\n\
        |-----------|\n",
    ),
];

/// A replacement names attributes that a permit for it lists.
const REPLACED: [Turn; 3] = [
    (
        b"ann",
        b"create q (c = i1, name = i4)\n\
        range of x is q\n\
        append to q (c = 2, name = 1)\n\
        define permit all of x (c) to bob\n",
        b"done\n\
        done\n\
        done\n",
    ),
    (
        b"bob",
        b"range of e is q\n\
        replace e (name = 5, c = 1)\n\
        replace e (c = 127)\n",
        b"refused 23 line 2: no permit\n\
        done\n",
    ),
    (
        b"ann",
        b"range of z is q\n\
        retrieve (z.all)\n",
        b"|c   |name       |\n\
        |----|-----------|\n\
        | 127|          1|\n\
        |----|-----------|\n",
    ),
];

/// What a permit for replacements doesn't let be read isn't read by a condition, and rows that it leaves out stay.
const ALTERED: [Turn; 4] = [
    (
        b"ann",
        b"create emp (sal = i2)\n\
        range of y is relation\n\
        append to emp (sal = y.relatts)\n",
        b"done\n\
        done\n",
    ),
    (
        b"ann",
        b"range of y is emp\n\
        define permit replace of y (sal) to bob where y.sal = 4\n",
        b"done\n",
    ),
    (
        b"bob",
        b"range of z is emp\n\
        replace z (sal = 0) where z.sal = 1\n\
        replace z (sal = 3)\n",
        b"refused 23 line 2: no permit\n\
        done\n",
    ),
    (
        b"ann",
        b"range of z is emp\n\
        retrieve (z.all)\n",
        b"|sal   |\n\
        |------|\n\
        |     1|\n\
        |     3|\n\
        |     5|\n\
        |------|\n",
    ),
];

/// Two permits that list an attribute each let one or the other be replaced.
const NOT_REPLACED: [Turn; 4] = [
    (
        b"ann",
        b"create p (name = c1, sal = c12)\n\
        range of x is p\n\
        append to p (sal = \"bbbbbbbbbbbb\", name = \"a\")\n\
        define permit replace of x (name) to cal\n\
        define permit replace of x (sal) to cal\n",
        b"done\n\
        done\n\
        done\n\
        done\n",
    ),
    (
        b"cal",
        b"range of y is p\n\
        replace y (sal = \"a\")\n",
        b"done\n",
    ),
    (
        b"cal",
        b"range of x is p\n\
        replace x (name = \"b\", sal = \"toy\")\n",
        b"refused 23 line 2: no permit\n",
    ),
    (
        b"ann",
        b"range of z is p\n\
        retrieve (z.all)\n",
        b"|name|sal         |\n\
        |----|------------|\n\
        |a   |a           |\n\
        |----|------------|\n",
    ),
];

/// Nor do two permits that list an attribute each let a row with both be put.
const NOT_APPENDED: [Turn; 3] = [
    (
        b"ann",
        b"create p (name = i1, a = i4)\n\
        range of y is p\n\
        define permit append of y (name) to cal\n\
        define permit append of y (a) to cal\n",
        b"done\n\
        done\n\
        done\n",
    ),
    (
        b"cal",
        b"append p (a = 5, name = - 0)\n",
        b"refused 23 line 1: no permit\n",
    ),
    (
        b"ann",
        b"range of z is p\n\
        retrieve (z.all)\n",
        b"|name|a          |\n\
        |----|-----------|\n\
        |----|-----------|\n",
    ),
];

/// A deletion takes the rows of its permit, until that is gone.
const DELETED: [Turn; 5] = [
    (
        b"ann",
        b"create dept (c = i1)\n\
        range of e is dept\n\
        append to dept (c = 5)\n\
        append dept (c = 1)\n\
        define permit delete to e (c) to all where e.c = 1\n",
        b"done\n\
        done\n\
        done\n\
        done\n",
    ),
    (
        b"bob",
        b"range of e is dept\n\
        delete e\n",
        b"done\n",
    ),
    (b"ann", b"destroy permit dept all\n", b"done\n"),
    (
        b"bob",
        b"range of e is dept\n\
        delete e\n",
        b"refused 23 line 2: no permit\n",
    ),
    (
        b"ann",
        b"range of z is dept\n\
        retrieve (z.all)\n",
        b"|c   |\n\
        |----|\n\
        |   5|\n\
        |----|\n",
    ),
];

/// A deletion that reads needs a permit to retrieve what it reads.
const READ: [Turn; 4] = [
    (
        b"ann",
        b"create dept (b = c3, sal = i4)\n\
        range of y is dept\n\
        append dept (b = \"\", sal = 0)\n\
        define permit retrieve of y (sal) to cal where y.sal >= 2\n\
        define permit delete to y to all\n",
        b"done\n\
        done\n\
        done\n\
        done\n",
    ),
    (
        b"bob",
        b"range of y is dept\n\
        delete y\n",
        b"done\n",
    ),
    (
        b"cal",
        b"range of x is dept\n\
        delete x where x.b != \"abc\"\n",
        b"refused 23 line 2: no permit\n",
    ),
    (
        b"ann",
        b"range of z is dept\n\
        retrieve (z.all)\n",
        b"|b  |sal        |\n\
        |---|-----------|\n\
        |---|-----------|\n",
    ),
];

#[test]
fn a_user_changes_what_a_permit_lets_change(rt: HostRuntime) {
    for turns in [
        APPENDED.as_slice(),
        FAILING.as_slice(),
        REPLACED.as_slice(),
        ALTERED.as_slice(),
        NOT_REPLACED.as_slice(),
        NOT_APPENDED.as_slice(),
        DELETED.as_slice(),
        READ.as_slice(),
    ] {
        assert!(rt; all_print(&rt, turns));
    }
}
