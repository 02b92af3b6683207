//! Worked examples of scripts that define views, permits and rules, change the catalogue, or use files.

use crate::trials::Case;

/// Scripts that define and use files, each with what it prints and leaves.
pub(crate) static DEFINED: [Case; 7] = [
    // An unknown command, and a file that isn't there.
    Case {
        files: &[],
        script: br"retrieve (x = 1)
\p
\r
\zz
\i none
\g
",
        output: br"retrieve (x = 1)
refused 2 line 0: monitor command
refused 32 line 0: no such file
",
        left: &[(b"none", None)],
    },
    // A rule leaves out what breaks it, and is refused where a row does.
    Case {
        files: &[],
        script: br"create w (sal = i2)
append to w (sal = 12) append to w (sal = 20)
range of e is w
define integrity on e is e.sal > 10
replace e (sal = e.sal - 5)
retrieve (e.sal)
define integrity on e is e.sal > 12
\g
",
        output: br"done
done
done
done
done
|sal   |
|------|
|    12|
|    15|
|------|
refused 27 line 7: rule does not hold
",
        left: &[],
    },
    // A view over two relations, beside itself.
    Case {
        files: &[],
        script: br"create p (a = i2) create q (b = i2)
append to p (a = 1) append to p (a = 2)
append to q (b = 2)
range of x is p range of y is q
define view big (n = x.a) where x.a < y.b
define view pair (l = x.a, r = y.b)
range of s is pair range of t is pair
retrieve (s.l, t.l) where s.l < t.l and s.r = t.r
range of u is big
retrieve (u.n)
delete u
\g
",
        output: br"done
done
done
done
done
done
done
|l     |l     |
|------|------|
|     1|     2|
|------|------|
|n     |
|------|
|     1|
|------|
refused 26 line 11: view
",
        left: &[],
    },
    // The numbers of permits.
    Case {
        files: &[],
        script: br"create p (a = i1)
range of x is p
define permit retrieve of x to all
define permit append of x to bob
destroy permit p 2
define permit delete of x to bob where x.a = 1
destroy permit p 1, 3
destroy permit p 1, 2
\g
",
        output: br"done
done
done
done
done
refused 19 line 7: no such number
done
",
        left: &[],
    },
    // Rows from a file, a hashed relation with an index, and a view over it.
    Case {
        files: &[(
            b"emp.txt",
            b"ann\t1200\ttoy\nbob\t900\tshoe\ncyd\t1500\ttoy\n",
        )],
        script: br#"create emp (name = c10, sal = i4, dept = c8)
create dept (dname = c8, floor = i2)
copy emp (name = c0tab, sal = c0tab, dept = c0nl) from "emp.txt"
append to dept (dname = "toy", floor = 1)
append to dept (dname = "shoe", floor = 2)
modify emp to hash on name
index on emp is empdept (dept)
range of e is emp
range of d is dept
define view first (name = e.name, sal = e.sal) where e.dept = d.dname and d.floor = 1
range of f is first
retrieve (f.all) where f.sal > 1000
print dept
\g
"#,
        output: br"done
done
done
done
done
done
done
done
|name      |sal        |
|----------|-----------|
|ann       |       1200|
|cyd       |       1500|
|----------|-----------|
|dname   |floor |
|--------|------|
|shoe    |     2|
|toy     |     1|
|--------|------|
",
        left: &[(
            b"emp.txt",
            Some(b"ann\t1200\ttoy\nbob\t900\tshoe\ncyd\t1500\ttoy\n"),
        )],
    },
    // Rows go into a file, and bad ones don't come.
    Case {
        files: &[(b"two", b"8\nx\n")],
        script: br#"create p (a = i2)
append to p (a = 7)
copy p (a = c0nl) into "out"
help p
copy p (a = c0nl) from "two"
print p
\g
"#,
        output: br"done
done
done
|attid |attname     |attfrmt|
|------|------------|-------|
|     1|a           |i2     |
|------|------------|-------|
refused 31 line 5: bad row 2
|a     |
|------|
|     7|
|------|
",
        left: &[(b"out", Some(b"7\n")), (b"two", Some(b"8\nx\n"))],
    },
    // A relation and its index are destroyed.
    Case {
        files: &[],
        script: br"create p (a = i2)
index on p is pi (a)
range of r is relation
retrieve (r.relid, r.relspec, r.relatts) where r.relatts = 1
destroy pi
modify p to isam
destroy p
print p
\g
",
        output: br"done
done
|relid       |relspec|relatts|
|------------|-------|-------|
|p           |heap   |      1|
|pi          |index  |      1|
|------------|-------|-------|
done
done
done
refused 10 line 8: unknown relation
",
        left: &[],
    },
];
