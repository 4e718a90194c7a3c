//! The pages of a part of docs/user/faults.md: Declarations. `tests/pages.py --write` writes this file.

pub(crate) const V1: &str = "\
V1: a character that is allowed in comments only

Outside comments the characters are those of ASCII, spaces and tabs; in rung lines there are no tabs. Letters with accents, typographic quotes and the byte order mark of some editors are the usual cause.

```console
$ cat v1.ld
VAR
  Größe AT %IX0 : BOOL;
END_VAR
$ ladder check v1.ld
fault V1 line 2
```

Corrected:

```console
$ cat v1_corrected.ld
VAR
  Groesse AT %IX0 : BOOL;  (* Größe *)
END_VAR
$ ladder check v1_corrected.ld
rungs 0 variables 1 instances 0
```
";

pub(crate) const V2: &str = "\
V2: a word or mark that isn't allowed here

The line is the one of the word. Often a semicolon or a colon is missing on the line before.

```console
$ cat v2.ld
VAR
  A AT %IX0 : BOOL
  Y AT %QX0 : BOOL;
END_VAR
$ ladder check v2.ld
fault V2 line 3
```

The first declaration had no semicolon, so `Y` can't follow. Corrected:

```console
$ cat v2_corrected.ld
VAR
  A AT %IX0 : BOOL;
  Y AT %QX0 : BOOL;
END_VAR
$ ladder check v2_corrected.ld
rungs 0 variables 2 instances 0
```
";

pub(crate) const V3: &str = "\
V3: no name

The name is a keyword or too long: 11 characters for a variable, 9 for a timer or counter, 8 for a bistable.

```console
$ cat v3.ld
VAR
  EmergencyStop AT %IX0 : BOOL;
END_VAR
$ ladder check v3.ld
fault V3 line 2
```

Corrected:

```console
$ cat v3_corrected.ld
VAR
  EmergStop AT %IX0 : BOOL;
END_VAR
$ ladder check v3_corrected.ld
rungs 0 variables 1 instances 0
```
";

pub(crate) const V4: &str = "\
V4: a name that was declared before

The case of letters doesn't matter. The line is the one of the second declaration.

```console
$ cat v4.ld
VAR
  Start AT %IX0 : BOOL;
  START AT %IX1 : BOOL;
END_VAR
$ ladder check v4.ld
fault V4 line 3
```

Corrected:

```console
$ cat v4_corrected.ld
VAR
  Start AT %IX0 : BOOL;
  Start2 AT %IX1 : BOOL;
END_VAR
$ ladder check v4_corrected.ld
rungs 0 variables 2 instances 0
```
";

pub(crate) const V5: &str = "\
V5: an address that was declared before

`%IX0`, `%I0` and `%IX00` are one address.

```console
$ cat v5.ld
VAR
  A AT %IX0 : BOOL;
  B AT %I0 : BOOL;
END_VAR
$ ladder check v5.ld
fault V5 line 3
```

Corrected:

```console
$ cat v5_corrected.ld
VAR
  A AT %IX0 : BOOL;
  B AT %I1 : BOOL;
END_VAR
$ ladder check v5_corrected.ld
rungs 0 variables 2 instances 0
```
";

pub(crate) const V6: &str = "\
V6: no preset for this block

PT of a timer is a duration in whole units, from larger to smaller; PV of a counter is a whole number from 0 to 32767.

```console
$ cat v6.ld
VAR
  Delay : TON := (PT := T#1.5s);
END_VAR
$ ladder check v6.ld
fault V6 line 2
```

Corrected:

```console
$ cat v6_corrected.ld
VAR
  Delay : TON := (PT := T#1s500ms);
END_VAR
$ ladder check v6_corrected.ld
rungs 0 variables 0 instances 1
```
";

pub(crate) const V7: &str = "\
V7: too many variables or instances

There are at most 256 variables and 64 instances. The line is the one of the first declaration that is too many.

```console
$ { echo VAR; seq 257 | sed 's/.*/  M& : BOOL;/'; echo END_VAR; } > v7.ld
$ ladder check v7.ld
fault V7 line 258
```

Corrected:

```console
$ { echo VAR; seq 256 | sed 's/.*/  M& : BOOL;/'; echo END_VAR; } > v7_corrected.ld
$ ladder check v7_corrected.ld
rungs 0 variables 256 instances 0
```
";

pub(crate) const V8: &str = "\
V8: the text ends too early

`END_VAR` or the end of a comment is missing. The line is the end of the text: the number of its line ends plus 1, so it says nothing of where the comment begins.

```console
$ cat v8.ld
VAR
  A AT %IX0 : BOOL;  (* the first input
  Y AT %QX0 : BOOL;
END_VAR
$ ladder check v8.ld
fault V8 line 5
```

Corrected:

```console
$ cat v8_corrected.ld
VAR
  A AT %IX0 : BOOL;  (* the first input *)
  Y AT %QX0 : BOOL;
END_VAR
$ ladder check v8_corrected.ld
rungs 0 variables 2 instances 0
```
";

pub(crate) const V9: &str = "\
V9: out of memory

The system refused memory while the program was read. No text has this fault.
";

pub(crate) const A1: &str = "\
A1: an alias that is a name or another alias

It comes with `--aliases` alone. An alias is a comment that stands alone right behind the name of a declaration, of 1 to 32 letters, digits, `_`, `-`, `.` and `/`; with `--aliases` it is printed in place of the name. So no alias is the name of another declaration, and no two are the same. The case of letters doesn't matter. Where two are the same, the line is the one of the second.

```console
$ cat a1.ld
VAR
  X10 (* magazine-at-home *) AT %IX10 : BOOL;
  X11 (* Magazine-at-home *) AT %IX11 : BOOL;
END_VAR
$ ladder check a1.ld
rungs 0 variables 2 instances 0
$ ladder check --aliases a1.ld
fault A1 line 3
```

Corrected:

```console
$ cat a1_corrected.ld
VAR
  X10 (* magazine-at-home *) AT %IX10 : BOOL;
  X11 (* magazine-away *) AT %IX11 : BOOL;
END_VAR
$ ladder check --aliases a1_corrected.ld
rungs 0 variables 2 instances 0
```
";
