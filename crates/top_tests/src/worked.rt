//! Worked examples of scripts: queries, updates, what refuses them, and aggregates.

use crate::trials::{Case, first_wrong};
use crate::worked_catalogue::DEFINED;
use std::test::*;

/// Scripts that ask and change, each with what it prints and leaves.
static ASKED: [Case; 18] = [
    // A script without a line.
    Case {
        files: &[],
        script: b"",
        output: b"",
        left: &[],
    },
    // A query that has a row, and one that has none.
    Case {
        files: &[],
        script: br"retrieve (x = 3)
retrieve (x = 3) where 1 = 2
\g
",
        output: br"|x                   |
|--------------------|
|                   3|
|--------------------|
|x                   |
|--------------------|
|--------------------|
",
        left: &[],
    },
    // A number that doesn't fit its domain, and the least that does.
    Case {
        files: &[],
        script: br"create q (a = i2)
append to q (a = 32768)
append to q (a = -32768)
range of y is q
retrieve (y.all)
\g
",
        output: br"done
refused 21 line 2: does not fit
done
|a     |
|------|
|-32768|
|------|
",
        left: &[],
    },
    // A row that is there already.
    Case {
        files: &[],
        script: br"create p (a = i2)
append to p (a = 7)
append to p (a = 7)
range of x is p
retrieve (x.a) where x.a > 5
\g
",
        output: br"done
done
done
|a     |
|------|
|     7|
|------|
",
        left: &[],
    },
    // A quotient without value, and a variable over no row.
    Case {
        files: &[],
        script: br"create n (a = i4) create m (b = i4)
append to n (a = 0) append to n (a = 2)
range of e is n range of f is m
retrieve (e.a) where 10 / e.a = 5
retrieve (x = 10 / e.a)
retrieve (e.a) where f.b = 1 or e.a = 2
\g
",
        output: br"done
done
done
done
|a          |
|-----------|
|          2|
|-----------|
refused 20 line 5: no value
|a          |
|-----------|
|-----------|
",
        left: &[],
    },
    // Quotients are cut toward zero, and powers group from the right.
    Case {
        files: &[],
        script: br"retrieve (a = -7 / 2, b = mod(-7, 2), c = -2 ** 2, d = 2 ** 3 ** 2, e = abs(-5))
\g
",
        output: br"|a                   |b                   |c                   |d                   |e                   |
|--------------------|--------------------|--------------------|--------------------|--------------------|
|                  -3|                  -1|                   4|                 512|                   5|
|--------------------|--------------------|--------------------|--------------------|--------------------|
",
        left: &[],
    },
    // A sum that 64 bits don't hold.
    Case {
        files: &[],
        script: br"retrieve (x = 9223372036854775807 + 1)
\g
",
        output: b"refused 20 line 1: no value\n",
        left: &[],
    },
    // A power with an exponent below zero.
    Case {
        files: &[],
        script: br"retrieve (x = 2 ** -1)
\g
",
        output: b"refused 20 line 1: no value\n",
        left: &[],
    },
    // Replacements read the rows of before, and no row may become two.
    Case {
        files: &[],
        script: br"create s (a = i2) create t (b = i2)
append to s (a = 1) append to s (a = 2) append to s (a = 3)
append to t (b = 5) append to t (b = 6)
range of e is s range of f is t
replace e (a = e.a + 1)
replace e (a = f.b) where e.a = 2
retrieve (e.a)
\g
",
        output: br"done
done
done
done
done
done
done
done
refused 22 line 6: two values for one row
|a     |
|------|
|     2|
|     3|
|     4|
|------|
",
        left: &[],
    },
    // Attributes change places, rows become one, and that one goes.
    Case {
        files: &[],
        script: br"create p (a = i2, b = i2)
append to p (a = 1, b = 2) append to p (a = 2, b = 1)
range of x is p
replace x (a = x.b, b = x.a)
retrieve (x.a, x.b)
replace x (a = 0, b = 0)
retrieve (x.a)
delete x where x.a = 0
retrieve (x.a)
\g
",
        output: br"done
done
done
done
|a     |b     |
|------|------|
|     1|     2|
|     2|     1|
|------|------|
done
|a     |
|------|
|     0|
|------|
done
|a     |
|------|
|------|
",
        left: &[],
    },
    // Rows that are sorted, a pattern, and kinds that differ.
    Case {
        files: &[],
        script: br#"create p (a = i2, t = c3)
append to p (a = 1, t = "b") append to p (a = 2, t = "a") append to p (a = 3, t = "b")
range of x is p
retrieve (x.a, x.t) sort by t:d, a:d
retrieve (x.t) where x.t = "?" and x.a != 2
retrieve (x.t) where x.t = 1
retrieve (x.a) sort by z
\g
"#,
        output: br"done
done
done
done
|a     |t  |
|------|---|
|     3|b  |
|     1|b  |
|     2|a  |
|------|---|
|t  |
|---|
|b  |
|---|
refused 13 line 6: types differ
refused 12 line 7: unknown attribute
",
        left: &[],
    },
    // A row of 1,001 bytes, and a name of 13 letters.
    Case {
        files: &[],
        script: br"create w (a = c255, b = c255, c = c255, d = c235)
create x (a = c255, b = c255, c = c255, d = c235, e = i1)
create abcdefghijkl (a = i1)
create abcdefghijklm (a = i1)
create y (a = i1)
\g
",
        output: br"done
refused 16 line 2: too wide
done
refused 1 line 4: syntax
",
        left: &[],
    },
    // What stands before a syntax error is run.
    Case {
        files: &[],
        script: br"create g (a = i1)
retreive (x = 1)
create h (a = i1)
\g
",
        output: b"done\nrefused 1 line 2: syntax\n",
        left: &[],
    },
    // A variable over no relation.
    Case {
        files: &[],
        script: br"range of x is p
\g
",
        output: b"refused 10 line 1: unknown relation\n",
        left: &[],
    },
    // Aggregates over views, of one variable and of two.
    Case {
        files: &[],
        script: br#"create emp (name = c6, dept = c6) create item (dept = c6, part = c6)
append to emp (name = "ann", dept = "toy")
append to item (dept = "toy", part = "car") append to item (dept = "toy", part = "doll")
range of e is emp range of i is item
define view sells (name = e.name) where e.dept = i.dept
define view depts (dept = i.dept)
range of v is sells range of w is depts
retrieve (v.name)
retrieve (n = count(w.dept))
retrieve (n = count(v.name))
destroy emp
\g
"#,
        output: br"done
done
done
done
done
done
done
|name  |
|------|
|ann   |
|------|
|n                   |
|--------------------|
|                   1|
|--------------------|
refused 18 line 10: aggregate
refused 25 line 11: in use
",
        left: &[],
    },
    // A sum for each value of an attribute, also where it is over no row.
    Case {
        files: &[],
        script: br"create g (d = i2, s = i2)
append to g (d = 1, s = 5) append to g (d = 2, s = 50)
range of e is g
retrieve (e.d, n = sum(e.s by e.d where e.s > 10))
retrieve (e.s) sort by s:d
\g
",
        output: br"done
done
done
|d     |n                   |
|------|--------------------|
|     1|                   0|
|     2|                  50|
|------|--------------------|
|s     |
|------|
|    50|
|     5|
|------|
",
        left: &[],
    },
    // A mean, different values, a greatest of no row, and whether there is a row.
    Case {
        files: &[],
        script: br"create s (k = i1, v = i2)
append to s (k = 1, v = -3) append to s (k = 1, v = -4)
append to s (k = 2, v = 5) append to s (k = 3, v = 5)
range of e is s
retrieve (a = avg(e.v where e.v < 0), n = countu(e.v), m = max(e.v where e.v > 9), y = any(e.v where e.k = 2))
\g
retrieve (x = sum(e.v / (e.k - 1)))
\g
",
        output: br"done
done
done
done
done
|a                   |n                   |m                   |y                   |
|--------------------|--------------------|--------------------|--------------------|
|                  -3|                   3|                   0|                   1|
|--------------------|--------------------|--------------------|--------------------|
refused 20 line 1: no value
",
        left: &[],
    },
    // A relation of 100,000 rows takes no further one.
    Case {
        files: &[],
        script: br"create dig (x = i1)
append to dig (x = 0) append to dig (x = 1) append to dig (x = 2) append to dig (x = 3)
append to dig (x = 4) append to dig (x = 5) append to dig (x = 6) append to dig (x = 7)
append to dig (x = 8) append to dig (x = 9)
create big (k = i4)
\g
range of a is dig range of b is dig range of c is dig range of d is dig range of e is dig
range of u is big
append to big (k = 10000 * a.x + 1000 * b.x + 100 * c.x + 10 * d.x + e.x)
\g
append to big (k = 100000)
\g
retrieve (n = count(u.k), total = sum(u.k), most = max(u.k), odd = sum(mod(u.k, 2)))
\g
",
        output: br"done
done
done
done
done
done
done
done
done
done
done
done
done
refused 29 line 1: too many rows
|n                   |total               |most                |odd                 |
|--------------------|--------------------|--------------------|--------------------|
|              100000|          4999950000|               99999|               50000|
|--------------------|--------------------|--------------------|--------------------|
",
        left: &[],
    },
];

#[test]
fn worked_scripts_print_and_leave_what_they_should(rt: HostRuntime) {
    for cases in [ASKED.as_slice(), DEFINED.as_slice()] {
        assert!(rt; first_wrong(&rt, cases).is_none());
    }
}
