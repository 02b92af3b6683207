//! What aggregates are over for several users of one database.

use crate::sessions::{Turn, all_print};
use std::test::*;

/// Aggregates of a relation, and of a view with a term, are over the rows that a permit shows.
const CUT: [Turn; 3] = [
    (
        b"ann",
        b"create emp (name = c4, dept = c4, sal = i2)\n\
        append to emp (name = \"ann\", dept = \"toy\", sal = 7)\n\
        append to emp (name = \"bo\", dept = \"toy\", sal = 9)\n\
        append to emp (name = \"cy\", dept = \"shoe\", sal = 20)\n\
        range of e is emp\n\
        define view va (d = e.dept, s = 2 * e.sal)\n\
        define permit retrieve of e to bob where e.sal < 15\n\
        range of v is va\n\
        retrieve (n = count(v.d), t = sum(v.s), m = max(v.s))\n",
        b"done\n\
        done\n\
        done\n\
        done\n\
        done\n\
        done\n\
        |n                   |t                   |m                   |\n\
        |--------------------|--------------------|--------------------|\n\
        |                   3|                  72|                  40|\n\
        |--------------------|--------------------|--------------------|\n",
    ),
    (
        b"bob",
        b"range of e is emp range of v is va\n\
        retrieve (n = count(v.d), t = sum(v.s), m = max(v.s))\n\
        retrieve (e.name, n = sum(v.s by v.d)) where v.d = e.dept\n\
        retrieve (e.name) where e.sal = max(e.sal)\n\
        retrieve (n = count(v.s where v.s > 30))\n",
        b"|n                   |t                   |m                   |\n\
        |--------------------|--------------------|--------------------|\n\
        |                   2|                  32|                  18|\n\
        |--------------------|--------------------|--------------------|\n\
        |name|n                   |\n\
        |----|--------------------|\n\
        |ann |                  32|\n\
        |bo  |                  32|\n\
        |----|--------------------|\n\
        |name|\n\
        |----|\n\
        |bo  |\n\
        |----|\n\
        |n                   |\n\
        |--------------------|\n\
        |                   0|\n\
        |--------------------|\n",
    ),
    (
        b"cal",
        b"range of e is emp range of v is va\n\
        retrieve (n = count(v.d))\n\
        retrieve (x = 1) where count(e.sal) = 3\n\
        retrieve (x = count(e.sal + 1))\n",
        b"refused 23 line 2: no permit\n\
        refused 23 line 3: no permit\n\
        refused 23 line 4: no permit\n",
    ),
];

/// What an aggregate uses of its relation, and what the variables outside of it use, are permitted apart.
const NAMED: [Turn; 3] = [
    (
        b"ann",
        b"create emp (name = c4, dept = c4, sal = i2)\n\
        append to emp (name = \"ann\", dept = \"toy\", sal = 7)\n\
        append to emp (name = \"bo\", dept = \"toy\", sal = 9)\n\
        range of e is emp\n\
        define permit retrieve of e (name, dept) to all\n\
        define permit retrieve of e (sal) to bob where e.sal > 8\n",
        b"done\n\
        done\n\
        done\n\
        done\n\
        done\n",
    ),
    (
        b"bob",
        b"range of e is emp\n\
        retrieve (n = count(e.dept), m = max(e.name by e.dept))\n\
        retrieve (n = count(e.dept where e.sal > 8))\n\
        retrieve (n = max(e.sal by e.dept))\n\
        retrieve (n = max(e.sal))\n\
        retrieve (e.name, n = sum(e.sal))\n\
        retrieve (e.name, n = count(e.sal)) where e.sal > 0\n",
        b"|n                   |m   |\n\
        |--------------------|----|\n\
        |                   2|bo  |\n\
        |--------------------|----|\n\
        refused 23 line 3: no permit\n\
        refused 23 line 4: no permit\n\
        |n                   |\n\
        |--------------------|\n\
        |                   9|\n\
        |--------------------|\n\
        |name|n                   |\n\
        |----|--------------------|\n\
        |ann |                   9|\n\
        |bo  |                   9|\n\
        |----|--------------------|\n\
        refused 23 line 7: no permit\n",
    ),
    (
        b"cal",
        b"range of e is emp\n\
        retrieve (n = countu(e.dept))\n\
        retrieve (e.name, n = max(e.sal))\n\
        define view mine (n = e.name)\n\
        range of m is mine\n\
        retrieve (x = max(m.n), y = count(m.n by m.n))\n",
        b"|n                   |\n\
        |--------------------|\n\
        |                   1|\n\
        |--------------------|\n\
        refused 23 line 3: no permit\n\
        done\n\
        |x   |y                   |\n\
        |----|--------------------|\n\
        |bo  |                   1|\n\
        |----|--------------------|\n",
    ),
];

/// What is changed by aggregates is changed by what the user may see.
const CHANGED: [Turn; 3] = [
    (
        b"ann",
        b"create emp (name = c4, sal = i2)\n\
        append to emp (name = \"ann\", sal = 7) append to emp (name = \"bo\", sal = 9) append to emp (name = \"cy\", sal = 20)\n\
        range of e is emp\n\
        define permit retrieve of e to bob where e.sal < 15\n\
        define permit append, delete, replace of e to bob\n",
        b"done\n\
        done\n\
        done\n\
        done\n\
        done\n\
        done\n",
    ),
    (
        b"bob",
        b"range of e is emp\n\
        create top (n = i4)\n\
        append to top (n = sum(e.sal))\n\
        replace e (sal = e.sal + max(e.sal)) where e.sal < max(e.sal)\n\
        append to emp (name = \"dee\", sal = count(e.sal))\n\
        delete e where e.sal = max(e.sal)\n\
        range of t is top\n\
        retrieve (t.n)\n\
        retrieve (e.all)\n",
        b"done\n\
        done\n\
        done\n\
        done\n\
        done\n\
        |n          |\n\
        |-----------|\n\
        |         16|\n\
        |-----------|\n\
        |name|sal   |\n\
        |----|------|\n\
        |dee |     1|\n\
        |----|------|\n",
    ),
    (
        b"ann",
        b"range of e is emp\n\
        retrieve (e.all)\n",
        b"|name|sal   |\n\
        |----|------|\n\
        |ann |    16|\n\
        |cy  |    20|\n\
        |dee |     1|\n\
        |----|------|\n",
    ),
];

#[test]
fn aggregates_are_over_what_is_permitted(rt: HostRuntime) {
    for turns in [CUT.as_slice(), NAMED.as_slice(), CHANGED.as_slice()] {
        assert!(rt; all_print(&rt, turns));
    }
}
