//! The pages of a part of docs/user/faults.md: Exports. `tests/pages.py --write` writes this file.

pub(crate) const E1: &str = "\
E1: the program can't have this name

`--name` gives the name of the program in the text, or in the project that `--xml` writes, which is `program0` without it. It is a letter or an underscore, then letters, digits and underscores, no keyword of Structured Text, and not the name of a variable or a block of the program.

```console
$ ladder export --st --name 2nd motor.ld
fault E1
$ ladder export --st --name Motor motor.ld
fault E1
```

Corrected:

```console
$ ladder export --st --name Motor_1 motor.ld | head -n 1
PROGRAM Motor_1
```
";

pub(crate) const E2: &str = "\
E2: an address that has two numbers already

`--bits` writes an address with one number by byte and bit, with `--st` and with `--xml`: `%IX13` as `%IX1.5`. One that has two numbers can't be written so.

```console
$ sed 's/%IX1 /%IX0.1 /' motor.ld > mixed.ld
$ ladder export --st --bits mixed.ld
fault E2 Stop
```

Corrected:

```console
$ ladder export --st --bits motor.ld | grep Stop
  Stop AT %IX0.1 : BOOL;
Motor := (Start OR Motor) AND NOT Stop;
```
";

pub(crate) const E3: &str = "\
E3: a text that would be too large

The text would have more than 600 statements or more than 1,000 names. A coil, a call and an edge are a statement or two each. A diagram is that of such statements, so with `--xml` the same holds; and a project has at most 4,000 elements and 40,000 connections.
";

pub(crate) const E4: &str = "\
E4: the text isn't the program

The text in Structured Text or in PLCopen XML is read again, and compared with the drawing; where it isn't found to do the same it isn't written. No drawing is known that has this fault: please report one.
";
