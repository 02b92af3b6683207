//! What scripts of several users print that run one after the other on one database in memory.

use crate::sessions::{Turn, all_print};
use std::test::*;

/// Two permits of an attribute each don't permit both, and none of them a deletion. What a statement names,
/// its kinds and its titles are checked before its permits.
const NAMED: [Turn; 2] = [
    (
        b"ann",
        b"create emp (name = c6, sal = i2)\n\
        append to emp (name = \"bo\", sal = 9)\n\
        range of e is emp\n\
        define permit retrieve of e (name) to bob\n\
        define permit retrieve of e (sal) to bob\n",
        b"done\n\
        done\n\
        done\n\
        done\n",
    ),
    (
        b"bob",
        b"range of e is emp\n\
        retrieve (e.name, e.sal)\n\
        retrieve (e.name)\n\
        delete e\n\
        retrieve (e.name, e.sal, e.none)\n\
        retrieve (e.name, e.sal) where e.sal = \"x\"\n\
        append to emp (name = \"cy\", none = 3)\n\
        retrieve into two (e.name, n = e.sal, n = e.sal)\n",
        b"refused 23 line 2: no permit\n\
        |name  |\n\
        |------|\n\
        |bo    |\n\
        |------|\n\
        refused 23 line 4: no permit\n\
        refused 12 line 5: unknown attribute\n\
        refused 13 line 6: types differ\n\
        refused 12 line 7: unknown attribute\n\
        refused 17 line 8: domain named twice\n",
    ),
];

/// A view over views needs a permit that names all that they use, and is cut by it.
const STACKED: [Turn; 4] = [
    (
        b"ann",
        b"create emp (name = c6, sal = i2)\n\
        append to emp (name = \"bo\", sal = 9) append to emp (name = \"cy\", sal = 30)\n\
        range of e is emp\n\
        define view va (n = e.name, s = e.sal)\n\
        range of a is va\n\
        define view vb (n = a.n, s = a.s) where a.s > 5\n\
        range of b is vb\n\
        define view vc (n = b.n)\n\
        define permit retrieve of e (name) to bob\n",
        b"done\n\
        done\n\
        done\n\
        done\n\
        done\n\
        done\n\
        done\n",
    ),
    (
        b"bob",
        b"range of c is vc\n\
        retrieve (c.n)\n\
        range of e is emp\n\
        retrieve (e.name)\n",
        b"refused 23 line 2: no permit\n\
        |name  |\n\
        |------|\n\
        |bo    |\n\
        |cy    |\n\
        |------|\n",
    ),
    (
        b"ann",
        b"range of e is emp\n\
        define permit retrieve of e (name, sal) to bob where e.sal < 20\n\
        range of c is vc\n\
        retrieve (c.n)\n",
        b"done\n\
        |n     |\n\
        |------|\n\
        |bo    |\n\
        |cy    |\n\
        |------|\n",
    ),
    (
        b"bob",
        b"range of c is vc\n\
        retrieve (c.n)\n\
        retrieve (c.n) where c.n != \"bo\"\n",
        b"|n     |\n\
        |------|\n\
        |bo    |\n\
        |------|\n\
        |n     |\n\
        |------|\n\
        |------|\n",
    ),
];

/// A permit that goes away goes for the view over its relation, too.
const TAKEN: [Turn; 4] = [
    (
        b"ann",
        b"create emp (name = c6, sal = i2)\n\
        append to emp (name = \"bo\", sal = 9) append to emp (name = \"cy\", sal = 30)\n\
        range of e is emp\n\
        define view va (n = e.name)\n\
        define permit retrieve of e to bob\n",
        b"done\n\
        done\n\
        done\n\
        done\n\
        done\n",
    ),
    (
        b"bob",
        b"range of a is va\n\
        retrieve (a.n)\n",
        b"|n     |\n\
        |------|\n\
        |bo    |\n\
        |cy    |\n\
        |------|\n",
    ),
    (
        b"ann",
        b"destroy permit emp 1\n\
        destroy permit emp 1\n\
        range of a is va\n\
        retrieve (a.n)\n",
        b"done\n\
        refused 19 line 2: no such number\n\
        |n     |\n\
        |------|\n\
        |bo    |\n\
        |cy    |\n\
        |------|\n",
    ),
    (
        b"bob",
        b"range of a is va\n\
        retrieve (a.n)\n",
        b"refused 23 line 2: no permit\n",
    ),
];

/// Each right is for its own statement, for the rows of its permit, and under the rules.
const RIGHTS: [Turn; 4] = [
    (
        b"ann",
        b"create emp (name = c6, sal = i2)\n\
        append to emp (name = \"bo\", sal = 9) append to emp (name = \"cy\", sal = 30)\n\
        range of e is emp\n\
        define permit retrieve of e to bob\n",
        b"done\n\
        done\n\
        done\n\
        done\n",
    ),
    (
        b"bob",
        b"range of e is emp\n\
        delete e\n\
        replace e (sal = 1)\n\
        append to emp (name = \"dee\", sal = 4)\n\
        retrieve (e.all)\n\
        define permit all of e to bob\n\
        destroy permit emp 1\n\
        define integrity on e is e.sal > 0\n",
        b"refused 23 line 2: no permit\n\
        refused 23 line 3: no permit\n\
        refused 23 line 4: no permit\n\
        |name  |sal   |\n\
        |------|------|\n\
        |bo    |     9|\n\
        |cy    |    30|\n\
        |------|------|\n\
        refused 24 line 6: not the owner\n\
        refused 24 line 7: not the owner\n\
        refused 24 line 8: not the owner\n",
    ),
    (
        b"ann",
        b"range of e is emp\n\
        define permit delete of e to bob where e.sal > 20\n\
        define permit append of e to bob where e.sal < 10\n\
        define permit replace of e (sal) to bob where e.name = \"bo\"\n\
        define integrity on e is e.sal > 3\n",
        b"done\n\
        done\n\
        done\n\
        done\n",
    ),
    (
        b"bob",
        b"range of e is emp\n\
        delete e\n\
        retrieve (e.all)\n\
        append to emp (name = \"dee\", sal = 4)\n\
        append to emp (name = \"eve\", sal = 40)\n\
        append to emp (name = \"flo\", sal = 2)\n\
        replace e (sal = e.sal + 1)\n\
        replace e (name = \"zed\")\n\
        replace e (sal = 2)\n\
        retrieve (e.all)\n",
        b"done\n\
        |name  |sal   |\n\
        |------|------|\n\
        |bo    |     9|\n\
        |------|------|\n\
        done\n\
        done\n\
        done\n\
        done\n\
        refused 23 line 8: no permit\n\
        done\n\
        |name  |sal   |\n\
        |------|------|\n\
        |bo    |    10|\n\
        |dee   |     4|\n\
        |------|------|\n",
    ),
];

/// A user's own view of another's relation shows what is permitted to the user; own names come first.
const OWN: [Turn; 3] = [
    (
        b"ann",
        b"create emp (name = c6, sal = i2)\n\
        append to emp (name = \"bo\", sal = 9) append to emp (name = \"cy\", sal = 30)\n\
        range of e is emp\n\
        define permit retrieve of e to bob where e.sal < 20\n",
        b"done\n\
        done\n\
        done\n\
        done\n",
    ),
    (
        b"bob",
        b"range of e is emp\n\
        define view mine (n = e.name)\n\
        range of m is mine\n\
        retrieve (m.n)\n\
        create emp (a = i1)\n\
        append to emp (a = 3)\n\
        retrieve (e.name)\n\
        range of e is emp\n\
        retrieve (e.a)\n\
        retrieve into kept (m.n)\n\
        range of k is kept\n\
        retrieve (k.n)\n",
        b"done\n\
        |n     |\n\
        |------|\n\
        |bo    |\n\
        |------|\n\
        done\n\
        done\n\
        |name  |\n\
        |------|\n\
        |bo    |\n\
        |------|\n\
        |a   |\n\
        |----|\n\
        |   3|\n\
        |----|\n\
        done\n\
        |n     |\n\
        |------|\n\
        |bo    |\n\
        |------|\n",
    ),
    (
        b"ann",
        b"range of m is mine\n\
        range of e is emp\n\
        retrieve (e.name)\n",
        b"refused 10 line 1: unknown relation\n\
        |name  |\n\
        |------|\n\
        |bo    |\n\
        |cy    |\n\
        |------|\n",
    ),
];

#[test]
fn each_user_sees_and_changes_what_is_permitted(rt: HostRuntime) {
    for turns in [
        NAMED.as_slice(),
        STACKED.as_slice(),
        TAKEN.as_slice(),
        RIGHTS.as_slice(),
        OWN.as_slice(),
    ] {
        assert!(rt; all_print(&rt, turns));
    }
}
