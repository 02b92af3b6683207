//! What several users see of one database by its permits: small cases, most of them found among random ones.

use crate::sessions::{Turn, all_print};
use std::test::*;

/// A permit that lists an attribute shows that alone, and a permit for all is for each user.
const ATTRIBUTES: [Turn; 3] = [
    (
        b"ann",
        b"create emp (a = c2, b = i4)\n\
        range of y is emp\n\
        append to emp (a = \"a\", b = 6)\n\
        define permit retrieve of y (b) to all\n",
        b"done\n\
        done\n\
        done\n",
    ),
    (
        b"bob",
        b"range of x is emp\n\
        range of e is emp\n\
        retrieve (e.b)\n\
        retrieve (x.all)\n\
        retrieve (e.b) where x.a = \"a\"\n",
        b"|b          |\n\
        |-----------|\n\
        |          6|\n\
        |-----------|\n\
        refused 23 line 4: no permit\n\
        refused 23 line 5: no permit\n",
    ),
    (
        b"cal",
        b"range of x is emp\n\
        retrieve (n = x.b + 1) where x.b > 0\n",
        b"|n                   |\n\
        |--------------------|\n\
        |                   7|\n\
        |--------------------|\n",
    ),
];

/// A permit shows the rows for which its qualification holds, once it is there.
const CUT: [Turn; 4] = [
    (
        b"ann",
        b"create p (c = i4)\n\
        append to p (c = - 2147483648)\n\
        append to p (c = 2)\n",
        b"done\n\
        done\n\
        done\n",
    ),
    (
        b"bob",
        b"range of y is p\n\
        retrieve (y.c, t = (64))\n",
        b"refused 23 line 2: no permit\n",
    ),
    (
        b"ann",
        b"range of x is p\n\
        define permit retrieve on x to all where x.c < 2\n",
        b"done\n",
    ),
    (
        b"cal",
        b"range of y is p\n\
        retrieve (y.c)\n",
        b"|c          |\n\
        |-----------|\n\
        |-2147483648|\n\
        |-----------|\n",
    ),
];

/// Two permits that list an attribute each show one or the other, also where no row is asked for.
const NOT_JOINED: [Turn; 2] = [
    (
        b"ann",
        b"create emp (b = c3, c = i2)\n\
        range of z is emp\n\
        append to emp (c = 1, b = \"abc\")\n\
        define permit retrieve of z (c) to cal\n\
        define permit retrieve of z (b) to cal\n",
        b"done\n\
        done\n\
        done\n\
        done\n",
    ),
    (
        b"cal",
        b"range of y is emp\n\
        retrieve (y.c)\n\
        retrieve (a = y.b, y.c) where y.c >= 5 and 2147483647 = y.c\n",
        b"|c     |\n\
        |------|\n\
        |     1|\n\
        |------|\n\
        refused 23 line 3: no permit\n",
    ),
];

/// A user's own view of another's relation has the rows that the user may retrieve.
const OWN_VIEW: [Turn; 2] = [
    (
        b"ann",
        b"create emp (c = c1)\n\
        range of y is emp\n\
        append emp (c = \"b\")\n\
        append emp (c = \"\")\n\
        define permit retrieve of y (c) to bob where y.c <= \"a\"\n",
        b"done\n\
        done\n\
        done\n\
        done\n",
    ),
    (
        b"bob",
        b"range of e is emp\n\
        define view va (cv = e.c)\n\
        range of y is va\n\
        retrieve (y.all)\n",
        b"done\n\
        |cv|\n\
        |--|\n\
        |  |\n\
        |--|\n",
    ),
];

/// A view over a relation is refused once its permits are gone.
const GONE: [Turn; 4] = [
    (
        b"ann",
        b"create emp (a = i1)\n\
        range of x is emp\n\
        append to emp (a = 0)\n\
        define permit retrieve to x (a) to all\n\
        define view vb (x.a, sal = (x.a))\n",
        b"done\n\
        done\n\
        done\n\
        done\n",
    ),
    (
        b"bob",
        b"range of y is vb\n\
        retrieve (y.sal)\n",
        b"|sal |\n\
        |----|\n\
        |   0|\n\
        |----|\n",
    ),
    (b"ann", b"destroy permit emp all\n", b"done\n"),
    (
        b"bob",
        b"range of y is vb\n\
        retrieve (y.sal)\n",
        b"refused 23 line 2: no permit\n",
    ),
];

/// A view of the owner's shows another user what a permit of its relation does.
const LENT_VIEW: [Turn; 2] = [
    (
        b"ann",
        b"create p (c = i2)\n\
        range of e is p\n\
        append to p (c = 5)\n\
        append to p (c = 0)\n\
        define permit delete, retrieve of e (c) to bob where e.c <= 3\n\
        define view vb (n = e.c)\n",
        b"done\n\
        done\n\
        done\n\
        done\n\
        done\n",
    ),
    (
        b"bob",
        b"range of z is vb\n\
        retrieve (z.n)\n",
        b"|n     |\n\
        |------|\n\
        |     0|\n\
        |------|\n",
    ),
];

#[test]
fn a_user_sees_what_a_permit_shows(rt: HostRuntime) {
    for turns in [
        ATTRIBUTES.as_slice(),
        CUT.as_slice(),
        NOT_JOINED.as_slice(),
        OWN_VIEW.as_slice(),
        GONE.as_slice(),
        LENT_VIEW.as_slice(),
    ] {
        assert!(rt; all_print(&rt, turns));
    }
}
