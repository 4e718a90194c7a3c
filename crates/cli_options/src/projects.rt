//! The pages of a part of docs/user/faults.md: Projects of ClassicLadder. `tests/pages.py --write` writes this file.

pub(crate) const P1: &str = "\
P1: this is no project

The first line of a project of ClassicLadder is `_FILES_CLASSICLADDER`. Such a file ends with `.clp`, and has its parts one after the other: the rungs, and tables of timers, symbols and sections.

```console
$ cat lamp.clp
_FILES_CLASSICLADDER
_FILE-sections.csv
000,0,-1,0,0,0
_/FILE-sections.csv
_FILE-rung_0.csv
#NEXTRUNG=-1
1-0-50/0 , 9-0-0/0 , 9-0-0/0 , 9-0-0/0 , 9-0-0/0 , 9-0-0/0 , 9-0-0/0 , 9-0-0/0 , 9-0-0/0 , 50-0-60/0
0-0-0/0 , 0-0-0/0 , 0-0-0/0 , 0-0-0/0 , 0-0-0/0 , 0-0-0/0 , 0-0-0/0 , 0-0-0/0 , 0-0-0/0 , 0-0-0/0
0-0-0/0 , 0-0-0/0 , 0-0-0/0 , 0-0-0/0 , 0-0-0/0 , 0-0-0/0 , 0-0-0/0 , 0-0-0/0 , 0-0-0/0 , 0-0-0/0
0-0-0/0 , 0-0-0/0 , 0-0-0/0 , 0-0-0/0 , 0-0-0/0 , 0-0-0/0 , 0-0-0/0 , 0-0-0/0 , 0-0-0/0 , 0-0-0/0
0-0-0/0 , 0-0-0/0 , 0-0-0/0 , 0-0-0/0 , 0-0-0/0 , 0-0-0/0 , 0-0-0/0 , 0-0-0/0 , 0-0-0/0 , 0-0-0/0
0-0-0/0 , 0-0-0/0 , 0-0-0/0 , 0-0-0/0 , 0-0-0/0 , 0-0-0/0 , 0-0-0/0 , 0-0-0/0 , 0-0-0/0 , 0-0-0/0
_/FILE-rung_0.csv
$ ladder import motor.ld
fault P1
```

Corrected:

```console
$ ladder import lamp.clp | head -n 1
VAR
```
";

pub(crate) const P2: &str = "\
P2: a rung that can't be read

The part of a rung has 6 rows of 10 elements, and tells the number of the next rung (`#NEXTRUNG=`).

```console
$ grep -v '^0-0' lamp.clp > short.clp
$ ladder import short.clp
fault P2 rung 0
```

Corrected:

```console
$ ladder import lamp.clp | head -n 1
VAR
```
";

pub(crate) const P3: &str = "\
P3: a table that can't be read

A line of a table isn't the numbers that it should be: of `timers`, `monostables`, `timers_iec` or `sections`.

```console
$ sed 's/^000,0,-1,0/000,0,-1,first/' lamp.clp > table.clp
$ ladder import table.clp
fault P3 sections
```

Corrected:

```console
$ ladder import lamp.clp | head -n 1
VAR
```
";

pub(crate) const P4: &str = "\
P4: a section that is no ladder diagram

A sequential chart can't be carried over.

```console
$ sed 's/^000,0,-1/000,1,-1/' lamp.clp > chart.clp
$ ladder import chart.clp
fault P4 section 0
```

Corrected:

```console
$ ladder import lamp.clp | head -n 1
VAR
```
";

pub(crate) const P5: &str = "\
P5: a section whose rungs don't lead to its last

A section has a first and a last rung, and each rung but the last one tells the next. Here the last one is rung 7, and rung 0 has no next one.

```console
$ sed 's/^000,0,-1,0,0/000,0,-1,0,7/' lamp.clp > lost.clp
$ ladder import lost.clp
fault P5 section 0
```

Corrected:

```console
$ ladder import lamp.clp | head -n 1
VAR
```
";

pub(crate) const P6: &str = "\
P6: an element that can't be carried over

The line names the rung as the project numbers it, the row and the column from 1, and a word for the reason; with `--why` a line with the reason in words follows. Each such element has a line, and nothing is written. `docs/user/import.md` has all reasons.

```console
$ sed 's/9-0-0.0 , 50-0/20-0-0\\/0 , 50-0/' lamp.clp > compare.clp
$ ladder import compare.clp
fault P6 rung 0 row 1 column 9 compare
$ ladder import --why compare.clp
fault P6 rung 0 row 1 column 9 compare
P6: a compare block compares numbers, which the language doesn't have
```

Corrected:

```console
$ ladder import lamp.clp | head -n 1
VAR
```
";

pub(crate) const P7: &str = "\
P7: too many rungs, variables or blocks

A program has at most 100 rungs, 256 variables and 64 instances of blocks. The word at the end of the line tells which of them are too many: `rungs`, `variables` or `blocks`.
";

pub(crate) const P8: &str = "\
P8: the text isn't the project

The text that was made of the project is read again, and what it has is compared with the project; where something differs it isn't written. No project is known that has this fault: please report one.
";
