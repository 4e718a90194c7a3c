//! The pages of a part of docs/user/faults.md: Files, arguments and writers. `tests/pages.py --write` writes this file.

pub(crate) const X1: &str = "\
X1: a file can't be read

It isn't there, it is a folder, or reading it failed. The fault's word tells which file: `program` (of `import` the project), `state`, `stimulus`, `trace` (that of `--expect`) or `hal`.

```console
$ ladder check moter.ld
fault X1 program
```

Corrected:

```console
$ ladder check motor.ld
rungs 1 variables 4 instances 0
```
";

pub(crate) const X2: &str = "\
X2: a record of the state or the stimulus, or an expression, is bad

Records are counted from 1, the header included; empty lines don't count. A state has exactly the records of its program, in order, with names spelled as declared, no spaces, and numbers without needless zeros. After a change of the program, make its states anew. In both, the fields are divided by commas: semicolons are X2 at record 1. In a stimulus each record has a moment and a 0 or 1 for each name of the header.

Of `--assume` it is an expression that is none, with its number: it has a character that isn't allowed or a comment without an end, its words make no expression, or more than 100 parentheses, NOTs and operators stand within one another. The first one is assume 1; with `--assumed` the expressions of the program text come first, in its order.

```console
$ cat two_fields.csv
moment,Start,Stop
0,1
$ ladder sim motor.ld two_fields.csv
moment,Motor,Lamp
fault X2 stimulus row 2
$ sed 's/var,Start/var,start/' state.csv > renamed.csv
$ ladder causes --state renamed.csv motor.ld Motor Start Stop
fault X2 state row 3
$ ladder causes --assume 'NOT (Start AND Stop' motor.ld Motor Start Stop
fault X2 assume 1
```

Corrected:

```console
$ cat three_fields.csv
moment,Start,Stop
0,1,0
$ ladder sim motor.ld three_fields.csv
moment,Motor,Lamp
0,1,0
$ ladder causes --state state.csv motor.ld Motor Start Stop
number,Start,Stop
0,0,0
2,1,0
rows 2 looks 1
$ ladder causes --assume 'NOT (Start AND Stop)' motor.ld Motor Start Stop
number,Start,Stop
2,1,0
rows 1 looks 1 assumed 1
```
";

pub(crate) const X3: &str = "\
X3: an argument is no name of a variable, or no input in a stimulus or an expression

On the command line COIL is word 1, the first INPUT word 2, also for `show --coil COIL`, with `--stimulus` too; in `show` without it the first INPUT is word 1. Of `reach` NAME is word 1, the name of `--both` is `both`, and the first INPUT word 2; NAME and that of `--both` may be of a block too, with its output behind it (`T1.Q`, of a bistable `B1.Q1`) or without. In the header of a stimulus (row 1) each name must be an input. A name of `sim --watch` must be that of a variable or of a block, without `.Q`; the first one is watch 1. Each word of `--assume` that is none of an expression must be the name of an input, no coil, memory variable, block or number; the line has the number of the expression, and the column at which the word begins; of an expression in the program text, columns are counted from the character after `assume:`.

```console
$ ladder causes motor.ld Moter Start Stop
fault X3 word 1
$ ladder show motor.ld Start Stopp
fault X3 word 2
$ ladder reach motor.ld Motor --both Lampp Start
fault X3 both
$ cat lamp.csv
moment,Lamp
0,1
$ ladder sim motor.ld lamp.csv
fault X3 row 1
$ ladder sim --watch Motor --watch Mottor motor.ld lamp.csv
fault X3 watch 2
$ ladder causes --assume 'Start OR Motor' motor.ld Motor Start Stop
fault X3 assume 1 column 10
```

Corrected:

```console
$ ladder causes motor.ld Motor Start Stop
number,Start,Stop
2,1,0
rows 1 looks 1
$ cat start.csv
moment,Start
0,1
$ ladder sim motor.ld start.csv
moment,Motor,Lamp
0,1,0
$ ladder causes --assume 'Start OR Stop' motor.ld Motor Start Stop
number,Start,Stop
2,1,0
rows 1 looks 1 assumed 1
```
";

pub(crate) const X4: &str = "\
X4: a moment that goes back

The moments of a stimulus never fall, and the first isn't before the moment of the state. Equal moments are accepted. The rows before the fault are written, and of `show --stimulus` the drawings.

```console
$ cat back.csv
moment,Start
10,1
5,0
$ ladder sim motor.ld back.csv
moment,Motor,Lamp
10,1,0
fault X4 row 3
```

Corrected:

```console
$ cat forth.csv
moment,Start
5,1
10,0
$ ladder sim motor.ld forth.csv
moment,Motor,Lamp
5,1,0
10,1,0
```
";

pub(crate) const X5: &str = "\
X5: a text is too long

A program, a project, a state and a HAL file have at most 1,048,576 bytes, a stimulus and a trace of `--expect` 16,777,216 bytes (`fault X5 stimulus`, `fault X5 trace`), and a stimulus 1,000,000 records after its header (`fault X5 row 1000002`); one that `show --stimulus` shows has 1,000 (`fault X5 row 1002`). With `sim --every` there are at most 10,000,000,000 scans, those between the records included; the row is the record before which the limit is reached.

```console
$ { cat motor.ld; yes '' | head -c 1048576; } > long.ld
$ ladder check long.ld
fault X5 program
```

Corrected:

```console
$ { cat motor.ld; yes '' | head -c 1000000; } > shorter.ld
$ ladder check shorter.ld
rungs 1 variables 4 instances 0
```
";

pub(crate) const X6: &str = "\
X6: a write failed

Standard output or the file of `--save` can't be written, or the folder of `--all-coils` or a file in it: the disk is full, a pipe is closed, a folder isn't there. What was written before is a prefix of the right text. A list goes on after its last whole row with `--after`. A state is written to a new file, named as that of `--save` with `.ladder-new` behind it, which takes its place at the end; so where writing it fails, the file has the state that it had.

```console
$ ladder causes motor.ld Motor Start Stop > /dev/full
fault X6
```

Corrected:

```console
$ ladder causes motor.ld Motor Start Stop > rows.csv
rows 1 looks 1
```
";

pub(crate) const X7: &str = "\
X7: out of memory

The system refused memory while the arguments, a file, a state or a stimulus were read, the fresh state was made, a drawing was marked, or a run was looked for. A search for a run keeps what it finds of states, so `--states` with a smaller number may help. No text has this fault.
";
