//! The pages of a part of docs/user/faults.md: Questions to `causes`. `tests/pages.py --write` writes this file.

pub(crate) const C1: &str = "\
C1: the moment is before the stored one

`--at` is a moment in ms on the same clock as the state's; the record `moment` of the state is the earliest. It is the same for `show` and `reach`.

```console
$ ladder causes --state state.csv --at 499 motor.ld Motor Start Stop
fault C1
$ ladder reach --state state.csv --at 499 motor.ld Motor
fault C1
```

Corrected:

```console
$ ladder causes --state state.csv --at 500 motor.ld Motor Start Stop
number,Start,Stop
0,0,0
2,1,0
rows 2 looks 1
```
";

pub(crate) const C2: &str = "\
C2: no coil writes this variable

It is declared, but no coil writes it. `uses` tells where it is drawn. Of `reach` it is NAME or the name of `--both`; a block, as `T1` or `T1.Q`, needs no coil.

```console
$ ladder causes motor.ld Lamp Start Stop
fault C2
$ ladder reach motor.ld Motor --both Lamp
fault C2
```

Corrected:

```console
$ ladder uses motor.ld
name,use,rung,row,column
Start,contact,1,1,1
Stop,not_contact,1,1,2
Motor,contact,1,2,1
Motor,coil,1,1,3
Lamp,unused,0,0,0
$ ladder causes motor.ld Motor Start Stop
number,Start,Stop
2,1,0
rows 1 looks 1
```
";

pub(crate) const C3: &str = "\
C3: too many inputs are listed

A list has at most 32 inputs, and so has `show`; groups over several scans and those of `--any` have at most 20. A run (`reach`) has no such limit. Leave out those that can't matter, or fix some in state texts (`docs/user/tutorial.md`).

```console
$ { echo VAR; seq 33 | sed 's/.*/  I& AT %IX& : BOOL;/'; echo '  Y AT %QX0 : BOOL;'; echo END_VAR; echo; echo '|     I1          Y'; echo '|----| |---------( )----'; } > c3.ld
$ ladder causes c3.ld Y $(seq 33 | sed 's/.*/I&/')
fault C3
```

Corrected:

```console
$ ladder causes --limit 0 c3.ld Y $(seq 32 | sed 's/.*/I&/') > rows.csv
rows 0 looks 0
```
";

pub(crate) const C4: &str = "\
C4: a listed variable is no input

Only variables with an address `%I..` can be listed, also for `show` and `reach`. An output or a memory variable has the value that the state stores: change it there.

```console
$ ladder causes motor.ld Motor Start Motor
fault C4
```

Corrected:

```console
$ ladder causes motor.ld Motor Start
number,Start
1,1
rows 1 looks 1
```
";

pub(crate) const C5: &str = "\
C5: an input is listed twice

It is the same for `show` and `reach`.

```console
$ ladder causes motor.ld Motor Start Start
fault C5
```

Corrected:

```console
$ ladder causes motor.ld Motor Start Stop
number,Start,Stop
2,1,0
rows 1 looks 1
```
";

pub(crate) const C6: &str = "\
C6: there is no such number

For k listed inputs the numbers go from 0 to 2^k - 1, those to begin after (`--after`), to end at (`--upto`) and to be shown (`show --number`).

```console
$ ladder causes --after 4 motor.ld Motor Start Stop
fault C6
$ ladder show --number 4 motor.ld Start Stop
fault C6
```

Corrected:

```console
$ ladder causes --after 3 motor.ld Motor Start Stop
number,Start,Stop
rows 0 looks 0
```
";

pub(crate) const C7: &str = "\
C7: out of memory

The system refused memory for the list. No question has this fault. Once the search is set up it needs no memory, however long the list is.
";

pub(crate) const C8: &str = "\
C8: there are no such scans

A list over several scans has from 1 to 1,000,000 of them: N (`--scans N`), or one more than fit into a time (`--for MS`); with `--every 0` no number of them fills a time. The moment of the last one, which is that of the first and N - 1 times `--every`, is at most 18446744073709551615.

```console
$ ladder causes --scans 0 motor.ld Motor Start Stop
fault C8
$ ladder causes --scans 1000001 motor.ld Motor Start Stop
fault C8
$ ladder causes --scans 3 --every 9223372036854775808 motor.ld Motor Start Stop
fault C8
$ ladder causes --for 1000 --every 0 motor.ld Motor Start Stop
fault C8
```

Corrected:

```console
$ ladder causes --scans 3 --every 100 motor.ld Motor Start Stop
number,scan,Start,Stop
2,1,1,0
rows 1
```
";

pub(crate) const C9: &str = "\
C9: what is assumed is never true

With none of the combinations that are listed all expressions of `--assume` and `--assumed` are true, so nothing could be listed, whatever the program does. An input that isn't listed keeps its stored value. With `causes --any`, and of `never`, `reach` and `diff OLD NEW`, all inputs are open: no values of them make all expressions true, of `diff` in both programs. Of `diff` with a coil it is that with no combination they are true in both programs, and of `show` that they aren't with the combination that is to be drawn.

```console
$ ladder causes --assume 'Start AND NOT Start' motor.ld Motor Start Stop
fault C9
$ ladder causes --assume Stop motor.ld Motor Start
fault C9
```

Corrected:

```console
$ ladder causes --assume 'NOT Stop' motor.ld Motor Start
number,Start
1,1
rows 1 looks 1 assumed 1
```
";

pub(crate) const S1: &str = "\
S1: a scan before the stored moment

This fault exists only below the command line: the call `scan` of the crate `ladder_scan` returns it where its moment is before that of the state, and leaves the state as it was. On the command line the same is C1 in `causes` and X4 in `sim`.
";
