//! What the statements of the catalogue and of files do to relations of several users.

use crate::sessions::{Turn, all_print};
use std::test::*;

/// What another user made can't be destroyed, restructured, indexed or copied; that is checked last, and own names
/// come first.
const OWNED: [Turn; 3] = [
    (
        b"ann",
        b"create emp (name = c6, sal = i2)\n\
        append to emp (name = \"bo\", sal = 9)\n\
        index on emp is ei (sal)\n\
        range of e is emp\n\
        define view poor (name = e.name) where e.sal < 10\n\
        define permit all of e to bob\n",
        b"done\n\
        done\n\
        done\n\
        done\n\
        done\n",
    ),
    (
        b"bob",
        b"destroy emp\n\
        destroy emp, zz\n\
        destroy emp, emp\n\
        destroy emp, relation\n\
        destroy ei\n\
        destroy poor\n\
        modify emp to hash\n\
        modify emp to hash on zz\n\
        modify emp to hash on sal, sal\n\
        modify poor to heap\n\
        index on emp is mine (name)\n\
        index on emp is emp (zz)\n\
        index on emp is mine (sal, sal)\n\
        index on poor is mine (name)\n\
        copy emp (name = c0nl) into \"f\"\n\
        copy emp (name = c0nl) from \"none\"\n\
        copy emp (name = i2) from \"none\"\n\
        copy poor (name = c0nl) into \"f\"\n\
        create emp (a = i1)\n\
        append to emp (a = 3)\n\
        modify emp to isam\n\
        index on emp is ei (a)\n\
        print emp\n\
        range of r is relation\n\
        retrieve (r.all) where r.relspec != \"heap\" or r.relid = \"emp\"\n\
        destroy ei\n\
        destroy emp\n\
        destroy ei\n\
        print emp\n",
        b"refused 24 line 1: not the owner\n\
        refused 10 line 2: unknown relation\n\
        refused 17 line 3: domain named twice\n\
        refused 28 line 4: catalogue\n\
        refused 24 line 5: not the owner\n\
        refused 24 line 6: not the owner\n\
        refused 24 line 7: not the owner\n\
        refused 12 line 8: unknown attribute\n\
        refused 17 line 9: domain named twice\n\
        refused 26 line 10: view\n\
        refused 24 line 11: not the owner\n\
        refused 12 line 12: unknown attribute\n\
        refused 17 line 13: domain named twice\n\
        refused 26 line 14: view\n\
        refused 24 line 15: not the owner\n\
        refused 24 line 16: not the owner\n\
        refused 13 line 17: types differ\n\
        refused 26 line 18: view\n\
        done\n\
        done\n\
        done\n\
        done\n\
        |a   |\n\
        |----|\n\
        |   3|\n\
        |----|\n\
        |relid       |relowner    |relspec|relatts|\n\
        |------------|------------|-------|-------|\n\
        |ei          |ann         |index  |      1|\n\
        |ei          |bob         |index  |      1|\n\
        |emp         |ann         |heap   |      2|\n\
        |emp         |bob         |isam   |      1|\n\
        |poor        |ann         |view   |      1|\n\
        |------------|------------|-------|-------|\n\
        done\n\
        done\n\
        refused 24 line 28: not the owner\n\
        |name  |sal   |\n\
        |------|------|\n\
        |bo    |     9|\n\
        |------|------|\n",
    ),
    (
        b"ann",
        b"destroy ei\n\
        destroy ei\n\
        print poor\n",
        b"done\n\
        refused 10 line 2: unknown relation\n\
        |name  |\n\
        |------|\n\
        |bo    |\n\
        |------|\n",
    ),
];

/// Another's relation is printed where a permit lets all of it be read, and as far as it does; help shows the own
/// entries and the administrator's, and needs no permit.
const SHOWN: [Turn; 6] = [
    (
        b"ann",
        b"create emp (name = c6, sal = i2)\n\
        append to emp (name = \"bo\", sal = 9) append to emp (name = \"cy\", sal = 30)\n\
        create dept (dname = c6)\n\
        append to dept (dname = \"toy\")\n\
        range of e is emp range of d is dept\n\
        define permit retrieve of e (name) to bob\n\
        define view names (name = e.name)\n\
        define view depts (dname = d.dname)\n",
        b"done\n\
        done\n\
        done\n\
        done\n\
        done\n\
        done\n\
        done\n\
        done\n",
    ),
    (
        b"bob",
        b"print emp\n\
        print dept\n\
        print names\n\
        print depts\n\
        print names, emp\n\
        print emp, zz\n\
        print relation\n\
        create mine (a = i1)\n\
        index on mine is mi (a)\n\
        help\n\
        help emp\n\
        help depts\n\
        help mi\n\
        help mine\n\
        help zz\n",
        b"refused 23 line 1: no permit\n\
        refused 23 line 2: no permit\n\
        |name  |\n\
        |------|\n\
        |bo    |\n\
        |cy    |\n\
        |------|\n\
        refused 23 line 4: no permit\n\
        refused 23 line 5: no permit\n\
        refused 10 line 6: unknown relation\n\
        |relid       |relowner    |relspec|relatts|\n\
        |------------|------------|-------|-------|\n\
        |attribute   |ann         |heap   |      5|\n\
        |dept        |ann         |heap   |      1|\n\
        |depts       |ann         |view   |      1|\n\
        |emp         |ann         |heap   |      2|\n\
        |names       |ann         |view   |      1|\n\
        |relation    |ann         |heap   |      4|\n\
        |------------|------------|-------|-------|\n\
        done\n\
        done\n\
        |relid       |relowner    |relspec|\n\
        |------------|------------|-------|\n\
        |attribute   |ann         |heap   |\n\
        |dept        |ann         |heap   |\n\
        |depts       |ann         |view   |\n\
        |emp         |ann         |heap   |\n\
        |mi          |bob         |index  |\n\
        |mine        |bob         |heap   |\n\
        |names       |ann         |view   |\n\
        |relation    |ann         |heap   |\n\
        |------------|------------|-------|\n\
        |attid |attname     |attfrmt|\n\
        |------|------------|-------|\n\
        |     1|name        |c6     |\n\
        |     2|sal         |i2     |\n\
        |------|------------|-------|\n\
        |attid |attname     |attfrmt|\n\
        |------|------------|-------|\n\
        |     1|dname       |c6     |\n\
        |------|------------|-------|\n\
        refused 10 line 13: unknown relation\n\
        |attid |attname     |attfrmt|\n\
        |------|------------|-------|\n\
        |     1|a           |i1     |\n\
        |------|------------|-------|\n\
        refused 10 line 15: unknown relation\n",
    ),
    (
        b"cal",
        b"help\n\
        help mine\n\
        print mine\n\
        print names\n",
        b"|relid       |relowner    |relspec|\n\
        |------------|------------|-------|\n\
        |attribute   |ann         |heap   |\n\
        |dept        |ann         |heap   |\n\
        |depts       |ann         |view   |\n\
        |emp         |ann         |heap   |\n\
        |names       |ann         |view   |\n\
        |relation    |ann         |heap   |\n\
        |------------|------------|-------|\n\
        refused 10 line 2: unknown relation\n\
        refused 10 line 3: unknown relation\n\
        refused 23 line 4: no permit\n",
    ),
    (
        b"ann",
        b"range of e is emp\n\
        define permit retrieve of e to bob where e.sal < 20\n\
        help\n\
        help mine\n",
        b"done\n\
        |relid       |relowner    |relspec|\n\
        |------------|------------|-------|\n\
        |attribute   |ann         |heap   |\n\
        |dept        |ann         |heap   |\n\
        |depts       |ann         |view   |\n\
        |emp         |ann         |heap   |\n\
        |names       |ann         |view   |\n\
        |relation    |ann         |heap   |\n\
        |------------|------------|-------|\n\
        refused 10 line 4: unknown relation\n",
    ),
    (
        b"bob",
        b"print emp, names\n",
        b"|name  |sal   |\n\
        |------|------|\n\
        |bo    |     9|\n\
        |------|------|\n\
        |name  |\n\
        |------|\n\
        |bo    |\n\
        |cy    |\n\
        |------|\n",
    ),
    (
        b"ann",
        b"print emp\n",
        b"|name  |sal   |\n\
        |------|------|\n\
        |bo    |     9|\n\
        |cy    |    30|\n\
        |------|------|\n",
    ),
];

/// Permits of a relation go with it, and don't count for one that is made anew; a view of another user keeps what
/// it names, and finds the name that it was defined with.
const GONE: [Turn; 8] = [
    (
        b"ann",
        b"create emp (name = c6, sal = i2)\n\
        append to emp (name = \"bo\", sal = 9)\n\
        range of e is emp\n\
        define permit retrieve of e to bob\n\
        define permit append of e to bob\n",
        b"done\n\
        done\n\
        done\n\
        done\n",
    ),
    (
        b"bob",
        b"print emp\n\
        range of e is emp\n\
        define view mine (name = e.name)\n\
        print mine\n",
        b"|name  |sal   |\n\
        |------|------|\n\
        |bo    |     9|\n\
        |------|------|\n\
        done\n\
        |name  |\n\
        |------|\n\
        |bo    |\n\
        |------|\n",
    ),
    (
        b"ann",
        b"destroy emp\n\
        destroy permit emp all\n",
        b"refused 25 line 1: in use\n\
        done\n",
    ),
    (b"bob", b"destroy mine\n", b"done\n"),
    (
        b"ann",
        b"destroy emp\n\
        create emp (name = c6, sal = i2)\n\
        append to emp (name = \"di\", sal = 1)\n",
        b"done\n\
        done\n\
        done\n",
    ),
    (
        b"bob",
        b"print emp\n\
        append to emp (name = \"eve\")\n",
        b"refused 23 line 1: no permit\n\
        refused 23 line 2: no permit\n",
    ),
    (
        b"ann",
        b"range of e is emp\n\
        define permit retrieve of e (name) to all\n\
        modify emp to hash on sal\n",
        b"done\n\
        done\n",
    ),
    (
        b"bob",
        b"range of e is emp\n\
        retrieve (e.name)\n\
        retrieve into kept (n = e.name)\n\
        modify kept to isam\n\
        index on kept is ki (n)\n\
        help\n",
        b"|name  |\n\
        |------|\n\
        |di    |\n\
        |------|\n\
        done\n\
        done\n\
        done\n\
        |relid       |relowner    |relspec|\n\
        |------------|------------|-------|\n\
        |attribute   |ann         |heap   |\n\
        |emp         |ann         |hash   |\n\
        |kept        |bob         |isam   |\n\
        |ki          |bob         |index  |\n\
        |relation    |ann         |heap   |\n\
        |------------|------------|-------|\n",
    ),
];

#[test]
fn users_have_what_is_theirs(rt: HostRuntime) {
    assert!(rt; all_print(&rt, &OWNED));
    assert!(rt; all_print(&rt, &SHOWN));
    assert!(rt; all_print(&rt, &GONE));
}
