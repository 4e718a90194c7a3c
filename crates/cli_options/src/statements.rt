//! The pages of a part of docs/user/faults.md: Programs in Structured Text. `tests/pages.py --write` writes this file.

pub(crate) const T1: &str = "\
T1: a character that isn't allowed here

A program has letters, digits, `_`, `.`, `%` and `#`, the symbols `:= => ( ) ; : , & = <>`, and comments `(* .. *)` and `// ..`. Any character is allowed in a comment; one that isn't closed is reported at its start.

```console
$ cat pump.st
PROGRAM pump
VAR
  Level AT %IX0.0 : BOOL;
  Hand AT %IX0.1 : BOOL;
  Trip AT %IX0.2 : BOOL;
  Pump AT %QX0.0 : BOOL;
  Lag : TON;
END_VAR
Lag(IN := Level, PT := T#3s);
Pump := (Lag.Q OR Hand) AND NOT Trip;
END_PROGRAM
$ sed 's/AND NOT/?/' pump.st > asked.st
$ ladder draw asked.st
fault T1 line 10
```

Corrected:

```console
$ ladder draw pump.st | head -n 1
VAR
```
";

pub(crate) const T2: &str = "\
T2: another word is due

A word is missing or is in the wrong place: a semicolon behind a statement, `THEN` behind a condition, a second operand. With `--why` the line below says which word is due.

```console
$ sed 's/Trip;$/;/' pump.st > short.st
$ ladder draw short.st
fault T2 line 10
```

Corrected:

```console
$ ladder draw pump.st | head -n 1
VAR
```
";

pub(crate) const T3: &str = "\
T3: a name that isn't declared, or is declared twice

Each name is declared once, between `VAR` and `END_VAR`. The case of letters makes no difference. In a drawing each value of an `INT` has a name too, as `step_10`, and of a name the first 32 characters count: two names that would be one there are refused as well.

```console
$ sed 's/OR Hand/OR Hands/' pump.st > misspelled.st
$ ladder draw misspelled.st
fault T3 line 10 Hands
```

Corrected:

```console
$ ladder draw pump.st | head -n 1
VAR
```
";

pub(crate) const T4: &str = "\
T4: a type that a drawing can't have

A variable is a `BOOL`, or in `VAR` an `INT` without an address. A block is a `TON`, `TOF`, `TP`, `CTU`, `CTD`, `SR`, `RS`, `R_TRIG` or `F_TRIG`.

```console
$ sed 's/: TON/: REAL/' pump.st > number.st
$ ladder draw number.st
fault T4 line 7 REAL
```

Corrected:

```console
$ ladder draw pump.st | head -n 1
VAR
```
";

pub(crate) const T5: &str = "\
T5: a statement or an operator that can't be drawn

A drawing has no loops and no arithmetic: no `FOR`, `WHILE`, `REPEAT` or `EXIT`, no `+` and no `>`. `=` and `<>` compare BOOL values, or an `INT` with a number. An `INT` is set to a number, compared with one or chosen by `CASE`; behind `NOT` such a comparison stands in parentheses.

```console
$ sed 's/^Pump := .*/WHILE Level DO/' pump.st > loop.st
$ ladder draw loop.st
fault T5 line 10 WHILE
```

Corrected:

```console
$ ladder draw pump.st | head -n 1
VAR
```
";

pub(crate) const T6: &str = "\
T6: what a drawing can't read or write of a block

Of a block a program reads the output `Q`, of a bistable `Q1`: the name of a block alone isn't a value. It gives the inputs and the preset that the block has, each once: `ET` and `CV` can't be read.

```console
$ sed 's/Lag.Q/Lag.ET/' pump.st > elapsed.st
$ ladder draw elapsed.st
fault T6 line 10 Lag.ET
```

Corrected:

```console
$ ladder draw pump.st | head -n 1
VAR
```
";

pub(crate) const T7: &str = "\
T7: an input that is written

No coil writes an input. An input is declared in `VAR_INPUT`, or `AT %I..`.

```console
$ sed 's/^Pump :=/Trip :=/' pump.st > written.st
$ ladder draw written.st
fault T7 line 10 Trip
```

Corrected:

```console
$ ladder draw pump.st | head -n 1
VAR
```
";

pub(crate) const T8: &str = "\
T8: a block that is called twice, or whose preset is missing

A block is drawn once, so it is called once. A timer and a counter have a preset, in their declaration or in their call; where it is in both, it is the same.

```console
$ sed 's/, PT := T#3s//' pump.st > endless.st
$ ladder draw endless.st
fault T8 line 9 Lag
```

Corrected:

```console
$ ladder draw pump.st | head -n 1
VAR
```
";

pub(crate) const T9: &str = "\
T9: a drawing that would be too large

A drawing has at most 100 rungs, 256 variables and 64 blocks. The line ends with `rungs`, `variables` or `blocks` and the number that there would be. A line number tells the place in the text where there are more than 600 statements, or more than 100 operators, NOTs and parentheses within one another.
";

pub(crate) const T10: &str = "\
T10: the drawing isn't the statements

The drawing is read again, and compared with the statements; where it isn't found to do the same it isn't written. No text is known that has this fault: please report one.
";
