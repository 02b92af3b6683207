// Scripts, what they print, and files.

/// Two relations, updates of which one is refused, and a query.
pub(crate) const UPDATES: &[u8] = b"create s (a = i2) create t (b = i2)\n\
    append to s (a = 1) append to s (a = 2) append to s (a = 3)\n\
    append to t (b = 5) append to t (b = 6)\n\
    range of e is s range of f is t\n\
    replace e (a = e.a + 1)\n\
    replace e (a = f.b) where e.a = 2\n\
    retrieve (e.a)\n\
    \\g\n";

/// What it prints.
pub(crate) const UPDATES_PRINTED: &[u8] = b"done\n\
    done\n\
    done\n\
    done\n\
    done\n\
    done\n\
    done\n\
    done\n\
    refused 22 line 6: two values for one row\n\
    |a     |\n\
    |------|\n\
    |     2|\n\
    |     3|\n\
    |     4|\n\
    |------|\n";

/// Queries, updates, utilities, a view, a permit, an aggregate, copies, refusals, and commands of the monitor.
pub(crate) const MIXED: &[u8] =
    b"create emp (name = c6, sal = i2, dept = c4) create dept (dname = c4, floor = i2)\n\
    append to emp (name = \"ann\", sal = 12, dept = \"toy\") append to emp (name = \"bob\", sal = 9, dept = \"shoe\")\n\
    append to emp (name = \"cyd\", sal = 15, dept = \"toy\")\n\
    range of e is emp range of d is dept\n\
    copy dept (dname = c0tab, floor = c0nl) from \"more\"\n\
    \\g\n\
    retrieve (e.name, d.floor) where e.dept = d.dname sort by name:d\n\
    \\p\n\
    \\g\n\
    replace e (sal = e.sal + 1) where e.dept = \"toy\"\n\
    delete e where e.sal < 10\n\
    \\g\n\
    \\a\n\
    retrieve (e.all)\n\
    \\p\\g\n\
    define view rich (name = e.name, floor = d.floor) where e.dept = d.dname and e.sal > 13\n\
    define permit retrieve of e (name) to bob\n\
    range of r is rich\n\
    retrieve (r.all)\n\
    retrieve (n = count(e.sal), t = sum(e.sal where e.dept = \"toy\"))\n\
    copy emp (name = c0comma, sal = c0nl) into \"out\"\n\
    append to emp (name = \"dan\", sal = 1)\n\
    retrieve (e.nothing)\n\
    print emp, dept\n\
    \\w kept\n\
    \\g\n\
    \\i part\n\
    \\i none\n\
    \\zz\n\
    retrieve (e.name\n\
    \\r\n\
    \\p\n\
    retrieve (e.name)\n\
    retreive (e.sal)\n\
    print dept\n\
    \\go\n\
    print emp\n";

/// What it prints, where `PART` is the file part, and `DEPARTMENTS` the file more.
pub(crate) const MIXED_PRINTED: &[u8] = b"done\n\
    done\n\
    done\n\
    done\n\
    done\n\
    done\n\
    retrieve (e.name, d.floor) where e.dept = d.dname sort by name:d\n\
    |name  |floor |\n\
    |------|------|\n\
    |cyd   |     1|\n\
    |bob   |     2|\n\
    |ann   |     1|\n\
    |------|------|\n\
    done\n\
    done\n\
    replace e (sal = e.sal + 1) where e.dept = \"toy\"\n\
    delete e where e.sal < 10\n\
    retrieve (e.all)\n\
    done\n\
    done\n\
    |name  |sal   |dept|\n\
    |------|------|----|\n\
    |ann   |    14|toy |\n\
    |cyd   |    17|toy |\n\
    |------|------|----|\n\
    done\n\
    done\n\
    |name  |floor |\n\
    |------|------|\n\
    |ann   |     1|\n\
    |cyd   |     1|\n\
    |------|------|\n\
    |n                   |t                   |\n\
    |--------------------|--------------------|\n\
    |                   2|                  31|\n\
    |--------------------|--------------------|\n\
    done\n\
    done\n\
    refused 12 line 8: unknown attribute\n\
    |name  |sal   |dept|\n\
    |------|------|----|\n\
    |ann   |    14|toy |\n\
    |cyd   |    17|toy |\n\
    |dan   |     1|    |\n\
    |------|------|----|\n\
    |dname|floor |\n\
    |-----|------|\n\
    |shoe |     2|\n\
    |toy  |     1|\n\
    |-----|------|\n\
    |dname|floor |\n\
    |-----|------|\n\
    |shoe |     2|\n\
    |toy  |     1|\n\
    |-----|------|\n\
    refused 32 line 0: no such file\n\
    refused 2 line 0: monitor command\n\
    |name  |\n\
    |------|\n\
    |ann   |\n\
    |cyd   |\n\
    |dan   |\n\
    |------|\n\
    refused 1 line 2: syntax\n";

/// A script that is included.
pub(crate) const PART: &[u8] = b"retrieve (d.all) where d.floor < 3\n\
    \\g\n";

/// Rows that are copied in.
pub(crate) const DEPARTMENTS: &[u8] = b"toy\t1\n\
    shoe\t2\n";

/// The rows that are copied out.
pub(crate) const STAFF: &[u8] = b"ann,14\n\
    cyd,17\n";

/// The buffer that is written.
pub(crate) const KEPT: &[u8] =
    b"define view rich (name = e.name, floor = d.floor) where e.dept = d.dname and e.sal > 13\n\
    define permit retrieve of e (name) to bob\n\
    range of r is rich\n\
    retrieve (r.all)\n\
    retrieve (n = count(e.sal), t = sum(e.sal where e.dept = \"toy\"))\n\
    copy emp (name = c0comma, sal = c0nl) into \"out\"\n\
    append to emp (name = \"dan\", sal = 1)\n\
    retrieve (e.nothing)\n\
    print emp, dept\n";

/// Relations with a view, a rule, a permit and an index.
pub(crate) const MADE: &[u8] = b"create p (a = i2, t = c3) create q (b = i1)\n\
    append to p (a = 1, t = \"x\") append to p (a = 2, t = \"y\") append to p (a = 300, t = \"z\")\n\
    append to q (b = 5) append to q (b = 6)\n\
    range of x is p range of y is q\n\
    define view v (n = x.a)\n\
    define integrity on x is x.a < 1000\n\
    define permit retrieve of x (a) to bob\n\
    index on p is pi (a)\n\
    \\g\n";

/// What it prints.
pub(crate) const MADE_PRINTED: &[u8] = b"done\n\
    done\n\
    done\n\
    done\n\
    done\n\
    done\n\
    done\n\
    done\n\
    done\n\
    done\n\
    done\n";

/// Shows all of it, and that there are no files short and out.
pub(crate) const SHOWN: &[u8] = b"range of r is relation\n\
    range of k is attribute\n\
    retrieve (r.relid, r.relowner, r.relspec)\n\
    retrieve (k.attrelid, k.attname)\n\
    print p, q, v\n\
    help p\n\
    \\g\n\
    \\i short\n\
    \\i out\n";

/// What it prints.
pub(crate) const SHOWN_PRINTED: &[u8] = b"|relid       |relowner    |relspec|\n\
    |------------|------------|-------|\n\
    |attribute   |ann         |heap   |\n\
    |p           |ann         |heap   |\n\
    |pi          |ann         |index  |\n\
    |q           |ann         |heap   |\n\
    |relation    |ann         |heap   |\n\
    |v           |ann         |view   |\n\
    |------------|------------|-------|\n\
    |attrelid    |attname     |\n\
    |------------|------------|\n\
    |attribute   |attfrmt     |\n\
    |attribute   |attid       |\n\
    |attribute   |attname     |\n\
    |attribute   |attowner    |\n\
    |attribute   |attrelid    |\n\
    |p           |a           |\n\
    |p           |t           |\n\
    |q           |b           |\n\
    |relation    |relatts     |\n\
    |relation    |relid       |\n\
    |relation    |relowner    |\n\
    |relation    |relspec     |\n\
    |v           |n           |\n\
    |------------|------------|\n\
    |a     |t  |\n\
    |------|---|\n\
    |     1|x  |\n\
    |     2|y  |\n\
    |   300|z  |\n\
    |------|---|\n\
    |b   |\n\
    |----|\n\
    |   5|\n\
    |   6|\n\
    |----|\n\
    |n     |\n\
    |------|\n\
    |     1|\n\
    |     2|\n\
    |   300|\n\
    |------|\n\
    |attid |attname     |attfrmt|\n\
    |------|------------|-------|\n\
    |     1|a           |i2     |\n\
    |     2|t           |c3     |\n\
    |------|------------|-------|\n\
    refused 32 line 0: no such file\n\
    refused 32 line 0: no such file\n";

/// What the permit allows bob.
pub(crate) const ALLOWED: &[u8] = b"range of x is p\n\
    retrieve (x.a)\n\
    \\g\n";

/// What it prints.
pub(crate) const ALLOWED_PRINTED: &[u8] = b"|a     |\n\
    |------|\n\
    |     1|\n\
    |     2|\n\
    |   300|\n\
    |------|\n";

/// Statements and commands of the owner that are refused.
pub(crate) const REFUSED: &[u8] = b"retreive (x = 1)\n\
    \\g\n\
    \\zz\n\
    \\i deep\n\
    \\i none\n\
    range of z is gone\n\
    range of x is p range of y is q range of w is v range of r is relation range of i is pi\n\
    append to gone (a = 1)\n\
    retrieve (u.a)\n\
    retrieve (x.b)\n\
    append to p (a = \"one\")\n\
    define permit append of x to bob where y.b = 1\n\
    create p (a = i1)\n\
    create wide (a = c255, b = c255, c = c255, d = c255)\n\
    create twice (a = i1, a = i2)\n\
    append to q (b = count(x.a where max(x.a) = 2))\n\
    destroy permit p 2\n\
    append to p (a = 1 / (x.a - 2))\n\
    append to q (b = 128)\n\
    replace y (b = x.a) where x.a < 3\n\
    destroy p\n\
    append to v (n = 3)\n\
    replace w (n = 3)\n\
    delete w\n\
    define integrity on x is x.a < 2\n\
    append to relation (relid = \"x\")\n\
    delete r\n\
    destroy relation\n\
    destroy integrity p 9\n\
    modify p to hash on b\n\
    copy p (a = c0nl) from \"bad\"\n\
    copy p (a = c0nl) from \"none\"\n\
    copy p (a = i1, t = c1) into \"short\"\n\
    copy q (b = c0nl, b = c0nl) into \"twice\"\n\
    retrieve into p (x.a)\n\
    retrieve (x.a) sort by b\n\
    \\g\n";

/// What it prints, where `DEEP` is the file deep, and `BAD` the file bad.
pub(crate) const REFUSED_PRINTED: &[u8] = b"refused 1 line 1: syntax\n\
    refused 2 line 0: monitor command\n\
    refused 3 line 0: include limit\n\
    refused 32 line 0: no such file\n\
    refused 10 line 1: unknown relation\n\
    refused 10 line 2: unknown relation\n\
    refused 10 line 3: unknown relation\n\
    refused 11 line 4: unknown variable\n\
    refused 12 line 5: unknown attribute\n\
    refused 13 line 6: types differ\n\
    refused 14 line 7: limit\n\
    refused 15 line 8: name in use\n\
    refused 16 line 9: too wide\n\
    refused 17 line 10: domain named twice\n\
    refused 18 line 11: aggregate\n\
    refused 19 line 12: no such number\n\
    refused 20 line 13: no value\n\
    refused 21 line 14: does not fit\n\
    refused 22 line 15: two values for one row\n\
    refused 25 line 16: in use\n\
    refused 26 line 17: view\n\
    refused 26 line 18: view\n\
    refused 26 line 19: view\n\
    refused 27 line 20: rule does not hold\n\
    refused 28 line 21: catalogue\n\
    refused 28 line 22: catalogue\n\
    refused 28 line 23: catalogue\n\
    refused 19 line 24: no such number\n\
    refused 12 line 25: unknown attribute\n\
    refused 31 line 26: bad row 2\n\
    refused 32 line 27: no such file\n\
    refused 31 line 28: bad row 3\n\
    refused 17 line 29: domain named twice\n\
    refused 15 line 30: name in use\n\
    refused 12 line 31: unknown attribute\n";

/// A script that includes itself.
pub(crate) const DEEP: &[u8] = b"\\i deep\n";

/// Rows of which the second is no number.
pub(crate) const BAD: &[u8] = b"3\n\
    x\n";

/// What bob is refused.
pub(crate) const FORBIDDEN: &[u8] = b"range of x is p\n\
    append to p (a = 3)\n\
    delete x\n\
    replace x (a = 1)\n\
    retrieve (x.t)\n\
    define permit retrieve of x to all\n\
    define integrity on x is x.a > 0\n\
    destroy p\n\
    destroy permit p all\n\
    modify p to isam\n\
    index on p is pj (a)\n\
    copy p (a = c0nl) into \"out\"\n\
    print p\n\
    \\g\n";

/// What it prints.
pub(crate) const FORBIDDEN_PRINTED: &[u8] = b"refused 23 line 2: no permit\n\
    refused 23 line 3: no permit\n\
    refused 23 line 4: no permit\n\
    refused 23 line 5: no permit\n\
    refused 24 line 6: not the owner\n\
    refused 24 line 7: not the owner\n\
    refused 24 line 8: not the owner\n\
    refused 24 line 9: not the owner\n\
    refused 24 line 10: not the owner\n\
    refused 24 line 11: not the owner\n\
    refused 24 line 12: not the owner\n\
    refused 23 line 13: no permit\n";
